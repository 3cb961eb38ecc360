// Lists by the signs that their points say: the first of each mnemonic, and those of the places
// that an address has within its word.
ghost use Rattle.std.specs.Prelude.{◌≡◌, ◌<◌, ◌≤◌, ◌+◌, ◌*◌, ◌^◌, [], All, IfOk, IfSome, OnOk};
ghost use Rattle.std.specs.Prelude.{length, pos};
ghost use Rattle.rvs_expr_text.specs.declared.lexeme.NumName.TheVariants.{EaAlign};
ghost use Rattle.rvs_insn.specs.Table.{op_count};
ghost use Rattle.rvs_index.specs.Buckets.{bucket_count};
ghost use Rattle.rvs_index.specs.Marks as spec;
ghost use Rattle.rvs_index.specs.Marks.{AreFilled, HasFirstHeads, HasMarks, HasPlaceHeads};
ghost use Rattle.rvs_index.specs.Marks.{IsHead, IsMark};
ghost use Rattle.rvs_index.specs.Signs.{has_all};
ghost use Rattle.rvs_index.specs.declared.mark.Audience.TheVariants as audience;
ghost use Rattle.rvs_index.specs.declared.shortcut.Shortcut.TheVariants as shortcut;

use crate::buckets::{BUCKETS, number_bucket};
use crate::hits::raise;
use crate::shortcut::Shortcut;
use crate::slot::{Slot, place_of};
use crate::taken::lacks_none;
use rvs_base::{Items, NoMemory};
use rvs_expr::NumName;
use rvs_facts::number;
use rvs_insn::OP_COUNT;
use std::alloc::Global;

/// What a point says, where that is signs: its place among the counts, and the bits of the signs.
#[derive(Clone, Copy)]
pub struct Mark {
    pub at: u32,
    pub mask: u32,
}

/// So many marks are held against the signs at once, without a loop: its end would depend on the
/// mnemonic, and be guessed wrong by the processor.
const GROUP: usize = 8;

/// A mark that no signs have, which are 31 bits.
const BLANK: Mark = Mark {
    at: 0,
    mask: 0x8000_0000,
};

/// The points of a list, where each says signs, besides what is so of all instructions that are
/// held against the list.
#[derive(Drop)]
pub struct Head {
    /// One for each point, and blank ones that make the last group whole.
    pub marks: Items<Mark>,
    /// The list has other points, and none of them is here.
    pub more: bool,
}

/// Which instructions are held against a list.
#[derive(Clone, Copy)]
pub enum Audience {
    /// Those of the mnemonic of this number.
    Mnemonic(usize),
    /// Those whose address has this place within its word.
    Aligned(i64),
}

/// The mask of what says an address's place, where the instructions have no other.
fn at_place(place: i64, value: i64) -> Option<u32>
    ensures { IfSome result (spec.SaysSigns (audience.Aligned place)
        (shortcut.Number EaAlign value)) }
{
    if place == value { Some(1) } else { None }
}

/// The mask of the signs that say the same as a shortcut, of these instructions. They have no other
/// mnemonic, or no other place of the address, than the list is for.
#[tactic(auto, using(crate::proofs::Marks::always_so, crate::proofs::Marks::placed_says))]
fn mask_of(audience: Audience, shortcut: Shortcut) -> Option<u32>
    ensures { IfSome result (spec.SaysSigns audience shortcut) }
{
    match (audience, shortcut) {
        (_, Shortcut::Signs(mask)) => Some(mask),
        (Audience::Mnemonic(mnemonic), Shortcut::Mnemonic(op)) => {
            if number(op) == mnemonic {
                Some(1)
            } else {
                None
            }
        },
        (Audience::Aligned(place), Shortcut::Number(NumName::EaAlign, value)) => {
            at_place(place, value)
        },
        (Audience::Aligned(place), Shortcut::Valued(mask, NumName::EaAlign, value)) => {
            if place == value { Some(mask) } else { None }
        },
        _ => None,
    }
}

#[tactic(auto, using(crate::proofs::Marks::marked))]
fn mark_of(audience: Audience, slot: &Slot<'_>) -> Option<Mark>
    ensures { IfSome result (IsMark audience slot.now) }
{
    let at = place_of(slot)?;
    let shortcut = slot.shortcut?;
    let mask = mask_of(audience, shortcut)?;
    Some(Mark { at, mask })
}

/// The marks of the points of a list, where each has one.
fn marks_of(
    alloc: Global,
    audience: Audience,
    slots: &[Slot<'_>],
) -> Result<Option<Items<Mark>>, NoMemory>
    ensures each { IfOk result (λ o. IfSome o (HasMarks audience slots.now)) }
    ensures all { IfOk result (λ o. IfSome o (λ marks. length marks ≡ length slots.now)) }
{
    let mut marks = Items::new(alloc);
    for slot in slots {
        match mark_of(audience, slot) {
            None => return Ok(None),
            Some(mark) => marks.push(mark)?,
        }
    }
    Ok(Some(marks))
}

/// Marks, and blank ones that make the last group whole.
#[tactic(auto, using(crate::proofs::Filling::filled_none))]
fn filled(marks: Items<Mark>) -> Result<Items<Mark>, NoMemory>
    ensures { IfOk result (AreFilled marks) }
{
    let mut marks = marks;
    let lacking = (GROUP - marks.as_slice().len() % GROUP) % GROUP;
    for _ in 0..lacking {
        marks.push(BLANK)?;
    }
    Ok(marks)
}

/// No marks: the points are to be looked at.
#[tactic(auto, using(crate::proofs::Filling::head_more))]
fn unmarked(alloc: Global, audience: Audience, slots: &[Slot<'_>]) -> Head
    ensures { IsHead audience slots.now result }
{
    let _ = audience;
    let _ = slots;
    Head {
        marks: Items::new(alloc),
        more: true,
    }
}

/// The marks of a list.
fn head_of(alloc: Global, audience: Audience, slots: &[Slot<'_>]) -> Result<Head, NoMemory>
    ensures { IfOk result (IsHead audience slots.now) }
{
    match marks_of(alloc, audience, slots)? {
        None => Ok(unmarked(alloc, audience, slots)),
        Some(marks) => Ok(Head {
            marks: filled(marks)?,
            more: false,
        }),
    }
}

/// The marks of the first lists of all mnemonics.
pub(crate) fn fill_heads(
    alloc: Global,
    heads: &mut Items<Head>,
    lists: &[Items<Slot<'_>>],
) -> Result<(), NoMemory>
    requires all { length lists.now ≡ op_count * bucket_count }
    requires none { heads.old ≡ [] }
    ensures each { OnOk result (HasFirstHeads lists.now heads.new) }
    ensures all { OnOk result (length heads.new ≡ op_count) }
{
    for number in 0..OP_COUNT {
        let slots = lists[number * BUCKETS].as_slice();
        heads.push(head_of(alloc, Audience::Mnemonic(number), slots)?)?;
    }
    Ok(())
}

/// So many places an address may have within its word.
pub(crate) const PLACES: usize = 4;

/// The marks of the list of an address's place, where it has more points than a cell.
fn place_head(alloc: Global, place: usize, slots: &[Slot<'_>]) -> Result<Head, NoMemory>
    requires { place < 4 }
    ensures { IfOk result (IsHead (audience.Aligned (pos place)) slots.now) }
{
    let audience = Audience::Aligned(place as i64);
    if slots.len() > 2 {
        head_of(alloc, audience, slots)
    } else {
        Ok(unmarked(alloc, audience, slots))
    }
}

/// The marks of the lists of an address's places, for all mnemonics.
pub(crate) fn fill_places(
    alloc: Global,
    heads: &mut Items<Head>,
    lists: &[Items<Slot<'_>>],
) -> Result<(), NoMemory>
    requires all { length lists.now ≡ op_count * bucket_count }
    requires none { heads.old ≡ [] }
    ensures each { OnOk result (HasPlaceHeads lists.now heads.new) }
    ensures all { OnOk result (length heads.new ≡ 4 * op_count) }
{
    for number in 0..PLACES * OP_COUNT {
        let place = number % PLACES;
        let bucket = number_bucket(NumName::EaAlign, place as i64);
        let slots = lists[number / PLACES * BUCKETS + bucket].as_slice();
        heads.push(place_head(alloc, place, slots)?)?;
    }
    Ok(())
}

/// Adds one to the counts of the marks whose bits these signs have.
#[inline(always)]
fn add_marks(marks: &[Mark], signs: u32, counts: &mut [u64])
    requires within { All (λ m. m.at < length counts.old) marks.now }
    requires few { length marks.now ≤ 2 ^ 62 }
    requires low { All (λ n. n ≤ 2 ^ 62) counts.old }
    ensures { counts.new ≡ spec.raised_marks signs marks.now counts.old }
{
    let lacking = !signs;
    for mark in marks {
        let hit = lacks_none(signs, lacking, mark.mask);
        raise(counts, mark.at as usize, hit);
    }
}

/// The same, group by group.
#[inline(always)]
pub(crate) fn add_groups(marks: &[Mark], signs: u32, counts: &mut [u64])
    requires within { All (λ m. m.at < length counts.old) marks.now }
    requires few { length marks.now ≤ length counts.old + 16 }
    requires low { All (λ n. n ≤ 2 ^ 41) counts.old }
    ensures { counts.new ≡ spec.raised_marks signs marks.now counts.old }
{
    let mut rest = marks;
    while rest.len() >= GROUP {
        let (group, after) = rest.split_at(GROUP);
        add_marks(group, signs, counts);
        rest = after;
    }
    add_marks(rest, signs, counts);
}

/// The same as a call, where it is seldom done: so what is done often stays small.
#[inline(never)]
pub(crate) fn add_groups_apart(marks: &[Mark], signs: u32, counts: &mut [u64])
    requires within { All (λ m. m.at < length counts.old) marks.now }
    requires few { length marks.now ≤ length counts.old + 16 }
    requires low { All (λ n. n ≤ 2 ^ 41) counts.old }
    ensures { counts.new ≡ spec.raised_marks signs marks.now counts.old }
{
    add_groups(marks, signs, counts);
}
