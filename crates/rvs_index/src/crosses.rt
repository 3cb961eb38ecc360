// The cross points by their number of places and their first mnemonic.
ghost use Rattle.std.specs.Prelude.{◌≡◌, ◌≤◌, ◌<◌, ◌^◌, ◌++◌, ◌∷◌, [], All, IfOk, OnOk, cond};
ghost use Rattle.std.specs.Prelude.{length, ◌*◌, ◌==◌};
ghost use Rattle.std.specs.List.{list_any};
ghost use Rattle.rvs_points.specs.PointView.{label_view, meaning_view};
ghost use Rattle.rvs_insn.specs.Table.{op_count};
ghost use Rattle.rvs_index.specs.Counting.{aims_in, aims_of_label};
ghost use Rattle.rvs_index.specs.Index as spec;
ghost use Rattle.rvs_index.specs.Index.{IsIndex, added_lasts, has_places, is_last, is_matched};
ghost use Rattle.rvs_index.specs.Index.{lengths_to, windows_key};
ghost use Rattle.rvs_index.specs.State.{added, any_cross, ends_run};

use crate::key::ListKey;
use crate::matched::add_matched;
use crate::slot::Slot;
use crate::slots::slots_of;
use rvs_base::{Items, NoMemory, beside};
use rvs_cross::places;
use rvs_facts::number;
use rvs_insn::{Insn, OP_COUNT};
use rvs_points::{Label, Meaning, Point};
use std::alloc::Global;
use std::marker::Model;

/// How many lists there are: for one to six places one a mnemonic.
const LISTS: usize = 6 * OP_COUNT;

/// The cross points of the selected labels by how many places they have and by the mnemonics of
/// the first: neighbours are held against those alone that their first instruction may begin, and
/// only as many neighbours as some cross point has places.
#[derive(Drop)]
pub struct Crosses<'g> {
    labels: &'g [Label],
    lists: Items<Items<Slot<'g>>>,
    lengths: Items<usize>,
}

impl<'g> Model for Crosses<'g> {
    ghost use Rattle.std.specs.Prelude.{List};
    ghost use Rattle.std.specs.Coded.{codes};
    ghost use Rattle.rvs_expr.specs.contracts.expr.Expr as expr;
    ghost use Rattle.rvs_points.specs.declared.group.Label as group;
    ghost use Rattle.rvs_index.specs.Index.{IsCrossIndex};

    ghost Value = { List group.Label };

    ghost coded = { Prim.hlevel (codes, expr.the_row.coded) };

    ghost view = { λ c. c.labels.now };

    ghost invariant = { λ c. IsCrossIndex c.labels.now c.lists c.lengths };
}

/// Whether a point is a cross point of so many places.
fn has_places(point: &Point, count: usize) -> bool
    ensures { result ≡ has_places count (meaning_view point.now.meaning) }
{
    match &point.meaning {
        Meaning::Window(cross) => places(cross) == count,
        _ => false,
    }
}

fn any_has_places(points: &[Point], count: usize) -> bool
    ensures { result ≡ list_any (λ p. has_places count (meaning_view p.meaning)) points.now }
{
    points.iter().any(|point| has_places(point, count))
}

/// Whether a label that is selected has a cross point of so many places.
fn has_cross(label: &Label, count: usize) -> bool
    ensures { result
        ≡ list_any (λ a. has_places count a.point.meaning) (aims_of_label (label_view label.now)) }
{
    label.selected && any_has_places(label.points.as_slice(), count)
}

fn any_has_cross(labels: &[Label], count: usize) -> bool
    ensures { result ≡ list_any (λ l. list_any (λ a. has_places count a.point.meaning)
        (aims_of_label (label_view l))) labels.now }
{
    labels.iter().any(|label| has_cross(label, count))
}

/// Whether one of the labels has.
fn have_crosses(labels: &[Label], count: usize) -> bool
    ensures { result ≡ list_any (λ a. has_places count a.point.meaning) (aims_in labels.now) }
{
    any_has_cross(labels, count)
}

/// Adds a number of places to others where the labels have cross points of so many.
fn add_length(lengths: &mut Items<usize>, labels: &[Label], count: usize) -> Result<(), NoMemory>
    ensures { OnOk result (lengths.new ≡ lengths.old ++ cond
        (list_any (λ a. has_places count a.point.meaning) (aims_in labels.now)) (count ∷ []) []) }
{
    if have_crosses(labels, count) {
        lengths.push(count)
    } else {
        Ok(())
    }
}

/// The numbers of places that there are cross points of, from the least.
fn lengths(alloc: Global, labels: &[Label]) -> Result<Items<usize>, NoMemory>
    ensures { IfOk result (λ lengths. lengths ≡ lengths_to (aims_in labels.now) 6) }
{
    let mut lengths = Items::new(alloc);
    for shorter in 0..6 {
        add_length(&mut lengths, labels, shorter + 1)?;
    }
    Ok(lengths)
}

fn is_among(lengths: &[usize], count: usize) -> bool
    ensures { result ≡ list_any (λ n. n == count) lengths.now }
{
    lengths.iter().any(|length| *length == count)
}

/// The list of this number: where no cross point has as many places, no point is looked at.
#[tactic(auto, using(crate::proofs::Absent::none_listed))]
fn list_of<'g>(
    alloc: Global,
    labels: &'g [Label],
    lengths: &[usize],
    number: usize,
) -> Result<Items<Slot<'g>>, NoMemory>
    requires room { length (aims_in labels.now) < 2 ^ 63 }
    requires lengths { lengths.now ≡ lengths_to (aims_in labels.now) 6 }
    requires low { number < 6 * op_count }
    ensures { IfOk result (λ slots. spec.places slots
        ≡ spec.places_for (spec.is_for (windows_key number)) 0 (aims_in labels.now)) }
{
    let count = number / OP_COUNT + 1;
    if is_among(lengths, count) {
        let key = ListKey::Windows {
            places: count,
            mnemonic: number % OP_COUNT,
        };
        slots_of(alloc, labels, key)
    } else {
        Ok(Items::new(alloc))
    }
}

/// The lists of all numbers of places and mnemonics, of labels with cross points of these numbers.
fn fill_lists<'g>(
    alloc: Global,
    lists: &mut Items<Items<Slot<'g>>>,
    labels: &'g [Label],
    lengths: &[usize],
) -> Result<(), NoMemory>
    requires room { length (aims_in labels.now) < 2 ^ 63 }
    requires lengths { lengths.now ≡ lengths_to (aims_in labels.now) 6 }
    requires none { lists.old ≡ [] }
    ensures index { OnOk result (IsIndex windows_key labels.now lists.new) }
    ensures all { OnOk result (length lists.new ≡ 6 * op_count) }
{
    for number in 0..LISTS {
        lists.push(list_of(alloc, labels, lengths, number)?)?;
    }
    Ok(())
}

impl<'g> Crosses<'g> {
    /// Those of these labels.
    ///
    /// # Errors
    ///
    /// [`NoMemory`].
    pub fn new(alloc: Global, labels: &'g [Label]) -> Result<Crosses<'g>, NoMemory>
        requires room { length (aims_in labels.now) < 2 ^ 63 }
        ensures { IfOk result (λ c. c ≡ labels.now) }
    {
        let lengths = lengths(alloc, labels)?;
        let mut lists = Items::new(alloc);
        let filled = fill_lists(alloc, &mut lists, labels, lengths.as_slice());
        let (_, (lists, lengths)) = beside(filled, (lists, lengths))?;
        Ok(Crosses {
            labels,
            lists,
            lengths,
        })
    }

    /// Whether a selected label has a cross point.
    #[inline(always)]
    pub fn is_any(&self) -> bool
        ensures { result ≡ any_cross (aims_in self.now) }
    {
        !self.lengths.as_slice().is_empty()
    }

    /// Adds one to the counts of the cross points that these instructions match.
    fn add_window(&self, window: &[Insn], counts: &mut [u64])
        requires some { 0 < length window.now }
        requires few { length window.now ≤ 6 }
        requires count { length counts.old ≡ length (aims_in self.now) }
        requires low { All (λ n. n ≤ 2 ^ 42) counts.old }
        ensures { counts.new
            ≡ added (λ a. is_matched a.point.meaning window.now) (aims_in self.now)
            counts.old }
    {
        let first = &window[0];
        let key = (window.len() - 1) * OP_COUNT + number(first.op);
        let slots = self.lists.as_slice()[key].as_slice();
        add_matched(slots, window, counts);
    }

    /// Adds one to the counts of the cross points of so many places that the last instructions of
    /// a run match.
    fn add_last(&self, count: usize, run: &[Insn], counts: &mut [u64])
        requires some { 1 ≤ count }
        requires few { length run.now ≤ 6 }
        requires count { length counts.old ≡ length (aims_in self.now) }
        requires low { All (λ n. n ≤ 2 ^ 42) counts.old }
        ensures { counts.new
            ≡ added (λ a. is_last count a.point.meaning run.now) (aims_in self.now)
            counts.old }
    {
        if count <= run.len() {
            self.add_window(&run[run.len() - count..], counts);
        }
    }

    /// The same for some numbers of places.
    #[inline(never)]
    fn add_lasts(&self, lengths: &[usize], run: &[Insn], counts: &mut [u64])
        requires some { All (λ n. 1 ≤ n) lengths.now }
        requires short { length lengths.now ≤ 6 }
        requires few { length run.now ≤ 6 }
        requires count { length counts.old ≡ length (aims_in self.now) }
        requires low { All (λ n. n ≤ 2 ^ 41) counts.old }
        ensures { counts.new
            ≡ added_lasts lengths.now run.now (aims_in self.now) counts.old }
    {
        for count in lengths {
            self.add_last(*count, run, counts);
        }
    }

    /// Adds one to the counts of the cross points that the last instructions of a run match.
    #[inline(always)]
    pub fn add(&self, run: &[Insn], counts: &mut [u64])
        requires few { length run.now ≤ 6 }
        requires count { length counts.old ≡ length (aims_in self.now) }
        requires low { All (λ n. n ≤ 2 ^ 41) counts.old }
        ensures { counts.new
            ≡ added (λ a. ends_run a.point.meaning run.now) (aims_in self.now) counts.old }
    {
        let lengths = self.lengths.as_slice();
        if !lengths.is_empty() {
            self.add_lasts(lengths, run, counts);
        }
    }
}
