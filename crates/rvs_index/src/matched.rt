// Counting the cross points that neighbours match.
ghost use Rattle.std.specs.Prelude.{◌≡◌, ◌<◌, ◌≤◌, ◌^◌, All, length, vec_len};
ghost use Rattle.rvs_points.specs.PointView.{meaning_view};
ghost use Rattle.rvs_index.specs.Index as spec;
ghost use Rattle.rvs_index.specs.Index.{is_matched, raised_all};

use crate::hits::raise;
use crate::slot::Slot;
use rvs_cross::{matches, places};
use rvs_expr::Steps;
use rvs_free::Free;
use rvs_insn::Insn;
use rvs_points::{Meaning, Point};
use std::marker::Brand;
use std::sync::ledger::{Blank, Ledger};

/// Whether a point is a cross point that these instructions match.
fn is_hit<L: Ledger>(point: &Point, window: &[Insn], steps: &mut Steps<L>) -> bool
    ensures { result ≡ is_matched (meaning_view point.now.meaning) window.now }
{
    match &point.meaning {
        Meaning::Window(cross) => places(cross) == window.len() && matches(cross, window, steps),
        _ => false,
    }
}

/// Adds one to the counts of those that they match, with a counter of steps that no one reads.
fn add_counted<L: Ledger>(blank: Blank, slots: &[Slot<'_>], window: &[Insn], counts: &mut [u64])
    requires name { blank.name ≡ L.name }
    requires parts { blank.parts ≡ L.parts }
    requires some { 0 < blank.parts }
    requires within { All (λ s. s.at < length counts.old) slots.now }
    requires few { length slots.now ≤ length counts.old }
    requires low { All (λ n. n ≤ 2 ^ 42) counts.old }
    ensures { counts.new
        ≡ raised_all (λ p. is_matched p.meaning window.now) (spec.places slots.now)
        counts.old }
{
    let mut steps: Steps<L> = Steps::new(blank, Free::new());
    for slot in slots {
        let hit = is_hit(slot.point, window, &mut steps);
        raise(counts, slot.at, hit);
    }
}

/// Adds one to the counts of the points of a list that these instructions match.
pub(crate) fn add_matched(slots: &[Slot<'_>], window: &[Insn], counts: &mut [u64])
    requires within { All (λ s. s.at < length counts.old) slots.now }
    requires few { length slots.now ≤ length counts.old }
    requires low { All (λ n. n ≤ 2 ^ 42) counts.old }
    ensures { counts.new
        ≡ raised_all (λ p. is_matched p.meaning window.now) (spec.places slots.now)
        counts.old }
{
    add_counted::<Brand>(Blank::new(1), slots, window, counts);
}
