// Counting the hits of one instruction.
ghost use Rattle.std.specs.Prelude.{◌≡◌, ◌<◌, ◌≤◌, ◌+◌, ◌^◌, All, length, vec_len};
ghost use Rattle.rvs_points.specs.Hits.{holds};
ghost use Rattle.rvs_facts.specs.Facts.{facts_of};
ghost use Rattle.rvs_index.specs.Index.{places, raised, raised_all};
ghost use Rattle.rvs_index.specs.Signs.{signs_of, signs_word};

use crate::known_facts::{Aligned, Known};
use crate::slot::Slot;
use rvs_expr::{Facts, Steps};
use rvs_free::Free;
use rvs_insn::Op;
use std::marker::Brand;
use std::sync::ledger::{Blank, Ledger};

/// Adds one to a count, where its point is hit.
#[inline(always)]
pub(crate) fn raise(counts: &mut [u64], at: usize, hit: bool)
    requires within { at < length counts.old }
    requires room { All (λ n. n + 1 < 2 ^ 64) counts.old }
    ensures items { counts.new ≡ raised hit at counts.old }
    ensures len { length counts.new ≡ length counts.old }
{
    counts[at] += u64::from(hit);
}

/// The same where few are: a count that stays isn't looked at.
#[inline(always)]
pub(crate) fn raise_rare(counts: &mut [u64], at: usize, hit: bool)
    requires within { at < length counts.old }
    requires room { All (λ n. n + 1 < 2 ^ 64) counts.old }
    ensures items { counts.new ≡ raised hit at counts.old }
    ensures len { length counts.new ≡ length counts.old }
{
    if hit {
        counts[at] += 1;
    }
}

/// Adds one to the counts of the points that are hit.
fn add_hits<F: Facts, L: Ledger>(
    slots: &[Slot<'_>],
    op: Op,
    facts: &F,
    signs: u32,
    counts: &mut [u64],
    steps: &mut Steps<L>,
)
    requires signs { signs ≡ signs_word (signs_of (F.table facts.now)) }
    requires within { All (λ s. s.at < length counts.old) slots.now }
    requires few { length slots.now ≤ length counts.old }
    requires low { All (λ n. n ≤ 2 ^ 41) counts.old }
    ensures { counts.new
        ≡ raised_all (λ p. holds p op (F.table facts.now)) (places slots.now) counts.old }
{
    for slot in slots {
        let hit = slot.holds(op, facts, signs, steps);
        raise_rare(counts, slot.at, hit);
    }
}

/// The same, with a counter of evaluations that no one reads.
fn add_counted<L: Ledger>(blank: Blank, slots: &[Slot<'_>], facts: &Known, counts: &mut [u64])
    requires name { blank.name ≡ L.name }
    requires parts { blank.parts ≡ L.parts }
    requires some { 0 < blank.parts }
    requires within { All (λ s. s.at < length counts.old) slots.now }
    requires few { length slots.now ≤ length counts.old }
    requires low { All (λ n. n ≤ 2 ^ 41) counts.old }
    ensures { counts.new ≡ raised_all (λ p. holds p facts.now.insn.op
        (facts_of facts.now.insn facts.now.first facts.now.second))
        (places slots.now) counts.old }
{
    let mut steps: Steps<L> = Steps::new(blank, Free::new());
    let insn = &facts.insn;
    let aligned = Aligned::new(*facts);
    add_hits(slots, insn.op, &aligned, facts.signs, counts, &mut steps);
}

/// Adds one to the counts of the points that an instruction hits.
pub(crate) fn add_insn(slots: &[Slot<'_>], facts: &Known, counts: &mut [u64])
    requires within { All (λ s. s.at < length counts.old) slots.now }
    requires few { length slots.now ≤ length counts.old }
    requires low { All (λ n. n ≤ 2 ^ 41) counts.old }
    ensures { counts.new ≡ raised_all (λ p. holds p facts.now.insn.op
        (facts_of facts.now.insn facts.now.first facts.now.second))
        (places slots.now) counts.old }
{
    add_counted::<Brand>(Blank::new(1), slots, facts, counts);
}
