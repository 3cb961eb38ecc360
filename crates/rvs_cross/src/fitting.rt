// Whether an instruction is what a place asks for.
ghost use Rattle.std.specs.Prelude.{◌≡◌, ◌+◌, ◌≤◌, option_map};
ghost use Rattle.std.specs.List.{list_any, list_all};
ghost use Rattle.rvs_expr.specs.TypedView as typed;
ghost use Rattle.rvs_facts.specs.Mnemonics as spec;
ghost use Rattle.rvs_cross.specs.Bare.{bare_view};
ghost use Rattle.rvs_cross.specs.CrossView.{place_view};
ghost use Rattle.rvs_cross.specs.Windows.{is_listed, is_set, meets, fits};

use crate::cross::{Assignment, Place};
use crate::named::names_at;
use crate::values::{Values, is_set};
use rvs_base::Items;
use rvs_expr::{Expr, Steps};
use rvs_facts::is_same;
use rvs_insn::{Insn, Op};
use std::sync::ledger::Ledger;

pub(crate) fn is_among(ops: &[Op], op: Op) -> bool
    ensures { result ≡ list_any (λ o. spec.is_same o op) ops.now }
{
    ops.iter().any(|other| is_same(*other, op))
}

/// Whether the mnemonic is listed, which all are where no list is given.
#[inline(always)]
fn is_listed(ops: &Option<Items<Op>>, op: Op) -> bool
    ensures { result ≡ is_listed ops.now op }
{
    match ops {
        None => true,
        Some(ops) => is_among(ops.as_slice(), op),
    }
}

#[inline(always)]
fn all_set(values: &Values, insn: &Insn, sets: &[Assignment]) -> bool
    ensures { result ≡ list_all (is_set values.now insn.now) sets.now }
{
    sets.iter()
        .all(|assignment| is_set(values, insn, assignment))
}

/// Whether the expression, where there is one, is defined and true. It is at most one step.
#[inline(always)]
fn meets<L: Ledger>(
    values: &Values,
    insn: &Insn,
    condition: &Option<Expr>,
    steps: &mut Steps<L>,
) -> bool
    ensures value { result ≡ meets values.now insn.now (option_map typed.view condition.now) }
    ensures cost { steps.new ≤ steps.old + 1 }
{
    match condition {
        None => true,
        Some(expr) => expr.eval(&names_at(values, insn), steps),
    }
}

/// Whether the instruction is what the place asks for. It is at most one step.
#[inline(always)]
pub fn fits<L: Ledger>(values: &Values, place: &Place, insn: &Insn, steps: &mut Steps<L>) -> bool
    ensures value { result ≡ fits values.now (place_view place.now) insn.now }
    ensures cost { steps.new ≤ steps.old + 1 }
{
    is_listed(&place.ops, insn.op)
        && all_set(values, insn, place.sets.as_slice())
        && meets(values, insn, &place.condition, steps)
}

/// Whether the instruction is what the place asks for besides its assignments. It is at most one
/// step.
#[inline(always)]
pub(crate) fn fits_bare<L: Ledger>(
    values: &Values,
    place: &Place,
    insn: &Insn,
    steps: &mut Steps<L>,
) -> bool
    ensures value { result ≡ fits values.now (bare_view place.now) insn.now }
    ensures cost { steps.new ≤ steps.old + 1 }
{
    is_listed(&place.ops, insn.op) && meets(values, insn, &place.condition, steps)
}
