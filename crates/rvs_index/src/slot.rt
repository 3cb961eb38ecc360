// A point, and its place among the counts.
ghost use Rattle.std.specs.Prelude.{◌≡◌, IfSome};
ghost use Rattle.std.proofs.Props.{props};
ghost use Rattle.rvs_points.specs.PointView.{point_view};
ghost use Rattle.rvs_points.specs.Hits as hit;
ghost use Rattle.rvs_index.specs.Buckets.{bucket_of};
ghost use Rattle.rvs_index.specs.Shortcuts.{says};
ghost use Rattle.rvs_index.specs.Signs.{signs_of, signs_word};
ghost use Rattle.rvs_expr.specs.Meaning.{Table};
ghost use Rattle.rvs_insn.specs.declared.op.Op as mnemonic;

use crate::buckets::bucket_of;
use crate::shortcut::{Shortcut, shortcut_of};
use rvs_expr::{Facts, Steps};
use rvs_insn::Op;
use rvs_points::Point;
use std::sync::ledger::Ledger;

/// A point and its place among the counts; and what it says, where that is a mnemonic, a
/// register, a number or signs, which are then compared without the point.
#[derive(Clone, Copy)]
pub struct Slot<'g> {
    pub point: &'g Point,
    pub at: usize,
    /// The list of a mnemonic in which it stands.
    pub bucket: usize,
    pub shortcut: Option<Shortcut>,
    ghost bucket_known: { bucket ≡ bucket_of (point_view point.now) } by { Prim.hlevel props },
    ghost same: { IfSome shortcut (λ s. (op : mnemonic.Op) (t : Table) →
        hit.holds (point_view point.now) op t ≡ says s op t) } by { Prim.hlevel props },
}

impl<'g> Slot<'g> {
    /// The slot of a point.
    pub(crate) fn new(point: &'g Point, at: usize) -> Self
        ensures point { result.point.now ≡ point.now }
        ensures place { result.at ≡ at }
    {
        let shortcut = shortcut_of(point);
        Slot {
            point,
            at,
            bucket: bucket_of(point),
            shortcut,
        }
    }

    /// Whether the point is hit by an instruction of this mnemonic, with these facts and their
    /// signs.
    #[inline(always)]
    pub(crate) fn holds<F: Facts, L: Ledger>(
        &self,
        op: Op,
        facts: &F,
        signs: u32,
        steps: &mut Steps<L>,
    ) -> bool
        requires { signs ≡ signs_word (signs_of (F.table facts.now)) }
        ensures { result ≡ hit.holds (point_view self.now.point.now) op (F.table facts.now) }
    {
        match self.shortcut {
            None => self.point.holds(op, facts, steps),
            Some(shortcut) => shortcut.holds(op, facts, signs),
        }
    }
}

/// The place of a point among the counts, where it is below 2^32.
pub(crate) fn place_of(slot: &Slot<'_>) -> Option<u32>
    ensures { IfSome result (λ at. at ≡ slot.now.at) }
{
    if slot.at > u32::MAX as usize {
        return None;
    }
    Some(slot.at as u32)
}
