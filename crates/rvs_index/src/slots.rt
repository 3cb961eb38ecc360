// The points that an instruction of a mnemonic may hit, alone or as the first of several.
ghost use Rattle.std.specs.Prelude.{◌≡◌, ◌==◌, ◌<◌, ◌+◌, ◌^◌, ◌++◌, ◌∷◌, [], IfOk, OnOk};
ghost use Rattle.std.specs.Prelude.{length, map};
ghost use Rattle.rvs_points.specs.PointView.{label_view, meaning_view, point_view};
ghost use Rattle.rvs_cross.specs.CrossView.{cross_view};
ghost use Rattle.rvs_cross.specs.First.{first_ops as first_of};
ghost use Rattle.rvs_index.specs.Counting.{aims_in, aims_of_label};
ghost use Rattle.rvs_index.specs.Index as index;
ghost use Rattle.rvs_index.specs.Index.{has_number, is_for, lists_number, meaning_fits, places};
ghost use Rattle.rvs_index.specs.Index.{places_for, places_in, stands, window_fits};

use crate::buckets::bucket_of;
use crate::key::ListKey;
use crate::slot::Slot;
use rvs_base::{Items, NoMemory};
use rvs_cross::{Cross, first_ops, places as place_count};
use rvs_facts::number;
use rvs_insn::Op;
use rvs_points::{Label, Meaning, Point};
use std::alloc::Global;

/// Whether an instruction of the mnemonic of this number may hit the point.
fn fits(mnemonic: usize, point: &Point) -> bool
    ensures { result ≡ meaning_fits mnemonic (meaning_view point.now.meaning) }
{
    match &point.meaning {
        Meaning::OpIs(op) => mnemonic == number(*op),
        _ => true,
    }
}

/// Whether the mnemonic of this number is among them.
fn has(ops: &[Op], mnemonic: usize) -> bool
    ensures { result ≡ has_number mnemonic ops.now }
{
    ops.iter().any(|op| mnemonic == number(*op))
}

/// Whether the first place of a cross point lists the mnemonic of this number.
fn lists_first(cross: &Cross, mnemonic: usize) -> bool
    ensures { result ≡ lists_number mnemonic (first_of (cross_view cross.now)) }
{
    match first_ops(cross) {
        None => true,
        Some(ops) => has(ops, mnemonic),
    }
}

/// Whether a point is a cross point of so many places of which an instruction of the mnemonic of
/// this number may be the first.
fn fits_window(count: usize, mnemonic: usize, point: &Point) -> bool
    ensures { result ≡ window_fits count mnemonic (meaning_view point.now.meaning) }
{
    match &point.meaning {
        Meaning::Window(cross) => place_count(cross) == count && lists_first(cross, mnemonic),
        _ => false,
    }
}

/// Whether a point stands in the list of this key, under a label that the list admits.
fn stands_in(key: ListKey, point: &Point) -> bool
    ensures { result ≡ stands key (point_view point.now) }
{
    match key {
        ListKey::Insns { mnemonic, bucket } => {
            bucket_of(point) == bucket && fits(mnemonic, point)
        },
        ListKey::Any { mnemonic } => fits(mnemonic, point),
        ListKey::Windows { places, mnemonic } => fits_window(places, mnemonic, point),
    }
}

/// Adds a point, where it stands in the list.
fn add_point<'g>(
    slots: &mut Items<Slot<'g>>,
    point: &'g Point,
    key: ListKey,
    at: usize,
) -> Result<(), NoMemory>
    ensures { OnOk result (places slots.new ≡ places slots.old
        ++ places_in key at (point_view point.now ∷ [])) }
{
    if stands_in(key, point) {
        slots.push(Slot::new(point, at))
    } else {
        Ok(())
    }
}

/// Adds the points of a label that stand in the list.
fn add_points<'g>(
    slots: &mut Items<Slot<'g>>,
    points: &'g [Point],
    key: ListKey,
    first: usize,
) -> Result<(), NoMemory>
    requires room { first + length points.now < 2 ^ 63 }
    ensures { OnOk result (places slots.new ≡ places slots.old
        ++ places_in key first (map point_view points.now)) }
{
    let mut at = first;
    for point in points {
        add_point(slots, point, key, at)?;
        at += 1;
    }
    Ok(())
}

/// Whether the list of this key may have points of a label with these mnemonics.
fn admits(key: ListKey, ops: &[Op]) -> bool
    ensures { result ≡ index.admits key ops.now }
{
    match key {
        ListKey::Insns { mnemonic, .. } => has(ops, mnemonic),
        ListKey::Any { mnemonic } => has(ops, mnemonic),
        ListKey::Windows { .. } => true,
    }
}

/// Adds the points of a label to the list of this key, and gives the place of the next label's.
#[tactic(auto, using(crate::proofs::Built::places_admitted, crate::proofs::Built::label_length))]
fn add_label<'g>(
    slots: &mut Items<Slot<'g>>,
    label: &'g Label,
    key: ListKey,
    first: usize,
) -> Result<usize, NoMemory>
    requires room { first + length (aims_of_label (label_view label.now)) < 2 ^ 63 }
    ensures slots { OnOk result (places slots.new
        ≡ places slots.old
        ++ places_for (is_for key) first (aims_of_label (label_view label.now))) }
    ensures next { IfOk result (λ next. next
        ≡ first + length (aims_of_label (label_view label.now))) }
{
    if !label.selected {
        return Ok(first);
    }
    let points = label.points.as_slice();
    let next = first + points.len();
    if !admits(key, label.ops.as_slice()) {
        return Ok(next);
    }
    add_points(slots, points, key, first)?;
    Ok(next)
}

/// The same list in no more memory than it needs, so that lists lie close together.
pub(crate) fn fitted<'g>(alloc: Global, slots: &[Slot<'g>]) -> Result<Items<Slot<'g>>, NoMemory>
    ensures { IfOk result (λ list. list ≡ slots.now) }
{
    Ok(Items::from(Vec::from_slice(alloc, slots)?))
}

/// The list of this key.
pub(crate) fn slots_of<'g>(
    alloc: Global,
    labels: &'g [Label],
    key: ListKey,
) -> Result<Items<Slot<'g>>, NoMemory>
    requires room { length (aims_in labels.now) < 2 ^ 63 }
    ensures { IfOk result (λ slots. places slots ≡ places_for (is_for key) 0 (aims_in labels.now)) }
{
    let mut slots = Items::new(alloc);
    let mut first: usize = 0;
    for label in labels {
        first = add_label(&mut slots, label, key, first)?;
    }
    fitted(alloc, slots.as_slice())
}
