// Lists of at most two points, each by the value that it says.
ghost use Rattle.std.specs.Prelude.{◌≡◌, ◌<◌, ◌≤◌, ◌^◌, [], ◌∷◌, All, IfSome, OnOk, length, true};
ghost use Rattle.std.specs.Prelude.{vec_len};
ghost use Rattle.rvs_index.specs.Cells as spec;
ghost use Rattle.rvs_index.specs.Cells.{HasCells, IsCell, IsCellFor};

use crate::asked::{Asked, asked_at, said};
use crate::bounded::bound_of;
use crate::buckets::BUCKETS;
use crate::hits::{raise, raise_rare};
use crate::slot::{Slot, place_of};
use rvs_base::{Items, NoMemory};

/// A value that no fact has.
pub(crate) const NEVER: i64 = -1_099_511_627_776;

/// What the points of a list say, where it has at most two and each says a value of the fact that
/// the list is for. So an instruction is held against them without a look at the points.
#[derive(Clone, Copy)]
pub struct Cell {
    /// The value that the first says.
    pub first: i64,
    /// The same of the second.
    pub second: i64,
    /// The place of the first among the counts.
    pub first_at: u32,
    /// The same of the second.
    pub second_at: u32,
    /// The list has other points, and none of them is here. Then these are values, one of which
    /// the fact has where a point is hit, unless the first is one that no fact has.
    pub more: bool,
}

fn pair(first: i64, first_at: u32, second: i64, second_at: u32) -> Cell
    ensures { result ≡ spec.pair first first_at second second_at }
{
    Cell {
        first,
        second,
        first_at,
        second_at,
        more: false,
    }
}

/// A cell that says to look at the points.
fn many() -> Cell
    ensures more { result.more ≡ true }
    ensures wide { result.first ≡ spec.never }
{
    Cell {
        first: NEVER,
        second: NEVER,
        first_at: 0,
        second_at: 0,
        more: true,
    }
}

/// The value that a point says of a fact, and its place, where that is below 2^32.
fn told(asked: Asked, slot: &Slot<'_>) -> Option<(i64, u32)>
    ensures value { IfSome result (λ found. spec.SaysValue asked slot.now found.0) }
    ensures place { IfSome result (λ found. found.1 ≡ slot.now.at) }
{
    let value = said(asked, slot)?;
    let at = place_of(slot)?;
    Some((value, at))
}

#[tactic(auto, using(crate::proofs::Cells::many_adds, crate::proofs::Cells::one_adds))]
fn one(asked: Asked, slot: &Slot<'_>) -> Cell
    ensures { IsCell asked (slot.now ∷ []) result }
{
    match told(asked, slot) {
        None => many(),
        Some((value, at)) => pair(value, at, NEVER, 0),
    }
}

#[tactic(auto, using(crate::proofs::Cells::many_adds, crate::proofs::Cells::two_add))]
fn two(asked: Asked, first: &Slot<'_>, second: &Slot<'_>) -> Cell
    ensures { IsCell asked (first.now ∷ second.now ∷ []) result }
{
    match told(asked, first) {
        None => many(),
        Some((value, at)) => match told(asked, second) {
            None => many(),
            Some((other, other_at)) => pair(value, at, other, other_at),
        },
    }
}

/// A cell of more points.
#[tactic(auto, using(crate::proofs::Cells::many_adds, crate::proofs::Bounding::bound_adds))]
fn more(asked: Asked, slots: &[Slot<'_>]) -> Cell
    ensures { IsCell asked slots.now result }
{
    match bound_of(asked, slots) {
        None => many(),
        Some((first, second)) => Cell {
            first,
            second,
            first_at: 0,
            second_at: 0,
            more: true,
        },
    }
}

/// The cell of a list for a fact; for none it says to look at the points.
#[tactic(auto, using(crate::proofs::Cells::none_adds))]
fn cell_of(asked: Option<Asked>, slots: &[Slot<'_>]) -> Cell
    ensures { IsCellFor asked slots.now result }
{
    let Some(asked) = asked else {
        return many();
    };
    match slots {
        [] => pair(NEVER, 0, NEVER, 0),
        [first] => one(asked, first),
        [first, second] => two(asked, first, second),
        _ => more(asked, slots),
    }
}

/// The cells of all lists.
pub(crate) fn fill_cells(cells: &mut Items<Cell>, lists: &[Items<Slot<'_>>]) -> Result<(), NoMemory>
    requires { cells.old ≡ [] }
    ensures each { OnOk result (HasCells lists.now cells.new) }
    ensures all { OnOk result (length cells.new ≡ length lists.now) }
{
    for number in 0..lists.len() {
        let slots = lists[number].as_slice();
        cells.push(cell_of(asked_at(number % BUCKETS), slots))?;
    }
    Ok(())
}

/// Whether a point of a cell with more points may be hit where its fact has this value.
#[inline(always)]
pub(crate) fn may_hit(cell: &Cell, value: i64) -> bool
    ensures { result ≡ spec.may_hit cell.now value }
{
    cell.first == value || cell.second == value || cell.first == NEVER
}

/// Adds one to the counts of the points of a cell that say this value.
#[inline(always)]
pub(crate) fn add_cell(cell: &Cell, value: i64, counts: &mut [u64])
    requires first { cell.now.first_at < length counts.old }
    requires second { cell.now.second_at < length counts.old }
    requires low { All (λ n. n ≤ 2 ^ 41) counts.old }
    ensures { counts.new ≡ spec.raised_cell cell.now value counts.old }
{
    raise(counts, cell.first_at as usize, cell.first == value);
    raise_rare(counts, cell.second_at as usize, cell.second == value);
}
