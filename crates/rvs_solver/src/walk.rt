// The search for a value point: first operands outside, passed over by their part of the
// expression, and words inside.
ghost use Rattle.std.specs.Prelude.{◌≡◌, ◌+◌, ◌*◌, ◌≤◌, ◌∷◌, [], length, find, sum_by};
ghost use Rattle.std.specs.Prelude.{All, None};
ghost use Rattle.std.specs.Option.{option_or};
ghost use Rattle.rvs_solver.specs.Walk.{search_view, is_true_at, with_numbers, at_w1, word_or};
ghost use Rattle.rvs_solver.specs.Walk.{own_addresses, found_at, own_at, first_in, passes_in};
ghost use Rattle.rvs_solver.specs.Walk.{MayPassOver, cost_at};

use crate::operand::Operand;
use crate::truth::is_true;
use rvs_choice::Choice;
use rvs_expr::{Expr, Steps};
use std::sync::ledger::Ledger;

/// What one mnemonic is searched for: the expression, the part of it that a first operand decides,
/// the registers, and the words that are tried.
#[derive(Drop)]
pub(crate) struct Search<'e> {
    pub(crate) expr: &'e Expr,
    pub(crate) part: Option<Expr>,
    /// The first registers.
    pub(crate) base: Choice,
    /// The first ones with the base of the address in `rs2` too, in a format that may store it.
    pub(crate) same: Option<Choice>,
    /// The words of `rs1`, where they don't come with the first operand.
    pub(crate) w1s: Vec<u32>,
    /// The words of `rs2`.
    pub(crate) w2s: Vec<u32>,
}

impl<'e> Search<'e> {
    /// The first choice with one of these first operands that makes the expression true. Those
    /// that store their own address come after all others.
    pub(crate) fn first<L: Ledger>(
        &self,
        operands: &[Operand],
        steps: &mut Steps<L>,
    ) -> Option<Choice>
        requires { All (MayPassOver (search_view self.now)) operands.now }
        ensures first { result ≡ first_in (search_view self.now) operands.now }
        ensures cost { steps.new ≤ steps.old
            + (length operands.now + sum_by (cost_at (search_view self.now)) operands.now) }
    {
        let mut kept = None;
        for operand in operands {
            let (found, next) = self.turn(operand, kept, steps);
            match found {
                Some(choice) => return Some(choice),
                None => kept = next,
            }
        }
        kept
    }

    /// One first operand, passed over where its part of the expression is false: what is found
    /// with a word of its own in `rs2`, and what is kept for the end.
    #[inline(always)]
    fn turn<L: Ledger>(
        &self,
        operand: &Operand,
        kept: Option<Choice>,
        steps: &mut Steps<L>,
    ) -> (Option<Choice>, Option<Choice>)
        requires { MayPassOver (search_view self.now) operand.now }
        ensures found { result.0 ≡ found_at (search_view self.now) operand.now }
        ensures kept { result.0 ≡ None → result.1
            ≡ option_or kept (own_at (search_view self.now) operand.now) }
        ensures cost { steps.new ≤ steps.old + (1 + cost_at (search_view self.now) operand.now) }
    {
        if !self.passes(operand, steps) {
            return (None, kept);
        }
        match self.first_at(operand, steps) {
            Some(choice) => (Some(choice), kept),
            None => match kept {
                Some(choice) => (None, Some(choice)),
                None => (None, self.own_address(operand, steps)),
            },
        }
    }

    /// Whether the part of the expression that the first operand decides is true.
    #[inline(always)]
    fn passes<L: Ledger>(&self, operand: &Operand, steps: &mut Steps<L>) -> bool
        ensures value { result ≡ passes_in (search_view self.now) operand.now }
        ensures cost { steps.new ≤ steps.old + 1 }
    {
        match &self.part {
            Some(part) => {
                let word = operand.word.unwrap_or(0);
                is_true(part, &with_numbers(&self.base, operand, word, 0), steps)
            },
            None => true,
        }
    }

    /// The choice that stores its own address, where there is one and it makes the expression
    /// true.
    fn own_address<L: Ledger>(&self, operand: &Operand, steps: &mut Steps<L>) -> Option<Choice>
        ensures value { result ≡ own_at (search_view self.now) operand.now }
        ensures cost { steps.new ≤ steps.old
            + length (own_addresses self.now.same (operand.now ∷ [])) }
    {
        match &self.same {
            Some(same) => {
                let word = operand.word.unwrap_or(0);
                let choice = with_numbers(same, operand, word, word);
                if is_true(self.expr, &choice, steps) {
                    Some(choice)
                } else {
                    None
                }
            },
            None => None,
        }
    }

    /// The first choice with this first operand and words of its own that makes the expression
    /// true.
    fn first_at<L: Ledger>(&self, operand: &Operand, steps: &mut Steps<L>) -> Option<Choice>
        ensures first { result ≡ found_at (search_view self.now) operand.now }
        ensures cost { steps.new ≤ steps.old
            + length (word_or operand.now.word self.now.w1s.items) * length self.now.w2s.items }
    {
        match operand.word {
            Some(word) => return self.first_with_w1(operand, word, steps),
            None => {},
        }
        for w1 in self.w1s.as_slice() {
            match self.first_with_w1(operand, *w1, steps) {
                Some(choice) => return Some(choice),
                None => {},
            }
        }
        None
    }

    fn first_with_w1<L: Ledger>(
        &self,
        operand: &Operand,
        w1: u32,
        steps: &mut Steps<L>,
    ) -> Option<Choice>
        ensures first { result ≡ find (is_true_at (search_view self.now).formula)
            (at_w1 (search_view self.now) operand.now w1) }
        ensures cost { steps.new ≤ steps.old + length self.now.w2s.items }
    {
        for w2 in self.w2s.as_slice() {
            let choice = with_numbers(&self.base, operand, w1, *w2);
            if is_true(self.expr, &choice, steps) {
                return Some(choice);
            }
        }
        None
    }
}

/// A choice with the registers of another one, a first operand and two words.
fn with_numbers(base: &Choice, operand: &Operand, w1: u32, w2: u32) -> Choice
    ensures { result ≡ with_numbers base.now operand.now w1 w2 }
{
    Choice {
        op: base.op,
        rd: base.rd,
        rs1: base.rs1,
        rs2: base.rs2,
        imm: operand.imm,
        align: operand.align,
        w1,
        w2,
    }
}
