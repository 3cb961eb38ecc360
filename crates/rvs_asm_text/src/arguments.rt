// Operands.
ghost use Rattle.std.specs.Prelude.{◌≡◌, ◌+◌, ◌∷◌, [], Some, None, length, count_by, ◌==◌};
ghost use Rattle.std.specs.Prelude.{MatchOption};
ghost use Rattle.std.specs.Option.{option_copied};
ghost use Rattle.rvs_asm_text.specs.Text.{operands};
ghost use Rattle.rvs_asm_text.specs.Operands.{brackets_of, only, pair, triple};

use crate::cutting::trimmed;
use rvs_base::cut;
use std::marker::Model;

/// The operands of a statement that are left. Contracts see them as the list of their texts.
#[derive(Drop)]
pub struct Operands<'t> {
    rest: Option<&'t [u8]>,
}

impl<'t> Model for Operands<'t> {
    ghost use Rattle.std.specs.Prelude.{List, ℕ};
    ghost use Rattle.std.specs.Option.{option_copied};
    ghost use Rattle.rvs_asm_text.specs.Text.{operands_left};

    ghost Value = { List (List ℕ) };

    ghost view = { λ o. operands_left (option_copied o.rest) };
}

impl<'t> Operands<'t> {
    /// The operands in what follows a statement's first word, without blanks at its ends.
    pub fn new(text: &'t [u8]) -> Self
        ensures { result ≡ operands text.now }
    {
        Operands {
            rest: if text.is_empty() { None } else { Some(text) },
        }
    }

    /// The first operand, which is passed over.
    pub fn next(&mut self) -> Option<&'t [u8]>
        ensures { MatchOption result (self.old ≡ []) (λ t. self.old ≡ t.now ∷ self.new) }
    {
        let rest = self.rest?;
        let (first, rest) = cut(rest, b',');
        self.rest = rest;
        Some(trimmed(first))
    }

    /// How many operands are left.
    pub fn len(&self) -> usize
        ensures { result ≡ length self.now }
    {
        match self.rest {
            Some(text) => one_more_than_commas(text),
            None => 0,
        }
    }

    /// The same operands, to be gone over again.
    pub fn again(&self) -> Operands<'t>
        ensures { result ≡ self.now }
    {
        Operands { rest: self.rest }
    }

    /// The operand, where there is just one.
    pub fn only(mut self) -> Option<&'t [u8]>
        ensures { option_copied result ≡ only self.entry }
    {
        let first = self.next()?;
        match self.next() {
            None => Some(first),
            Some(_) => None,
        }
    }

    /// The two operands, where there are just two.
    pub fn pair(mut self) -> Option<(&'t [u8], &'t [u8])>
        ensures { MatchOption result (pair self.entry ≡ None)
            (λ p. pair self.entry ≡ Some (p.0.now, p.1.now)) }
    {
        let first = self.next()?;
        let second = self.next()?;
        match self.next() {
            None => Some((first, second)),
            Some(_) => None,
        }
    }

    /// The three operands, where there are just three.
    pub fn triple(mut self) -> Option<(&'t [u8], &'t [u8], &'t [u8])>
        ensures { MatchOption result (triple self.entry ≡ None)
            (λ p. triple self.entry ≡ Some (p.0.now, p.1.now, p.2.now)) }
    {
        let first = self.next()?;
        let second = self.next()?;
        let third = self.next()?;
        match self.next() {
            None => Some((first, second, third)),
            Some(_) => None,
        }
    }
}

/// One more than the commas that a text has.
fn one_more_than_commas(text: &[u8]) -> usize
    ensures { result ≡ count_by (λ c. c == 44) text.now + 1 }
{
    let mut count = 1;
    for c in text {
        if *c == b',' {
            count += 1;
        }
    }
    count
}

/// An operand with brackets: what stands before the first opening one, from there to the first
/// closing one, and after that, each without the blanks round it.
#[derive(Drop)]
pub struct Bracketed<'t> {
    head: &'t [u8],
    inside: &'t [u8],
    rest: &'t [u8],
}

impl<'t> Model for Bracketed<'t> {
    ghost use Rattle.rvs_asm_text.specs.Operands.{Brackets};

    ghost Value = { Brackets };

    ghost view = { λ b. record { head = b.head.now; inside = b.inside.now; rest = b.rest.now } };
}

impl<'t> Bracketed<'t> {
    /// The parts of an operand with brackets.
    pub fn read(text: &'t [u8]) -> Option<Self>
        ensures { result ≡ brackets_of text.now }
    {
        let (head, inner) = cut(text, b'(');
        let (inside, rest) = cut(inner?, b')');
        Some(Bracketed {
            head: trimmed(head),
            inside: trimmed(inside),
            rest: trimmed(rest?),
        })
    }

    /// What stands before the brackets.
    pub fn head(&self) -> &'t [u8]
        ensures { result.now ≡ self.now.head }
    {
        self.head
    }

    /// What stands in the brackets.
    pub fn inside(&self) -> &'t [u8]
        ensures { result.now ≡ self.now.inside }
    {
        self.inside
    }

    /// What stands after the brackets.
    pub fn rest(&self) -> &'t [u8]
        ensures { result.now ≡ self.now.rest }
    {
        self.rest
    }
}
