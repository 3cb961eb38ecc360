// Lists of more than two points, by the values that they ask of the fact that they are for.
ghost use Rattle.std.specs.Prelude.{◌≡◌, ℤ, IfSome, Some, false, length, true};
ghost use Rattle.std.specs.Ordering.{int_eq};
ghost use Rattle.rvs_expr.specs.Meaning.{Table};
ghost use Rattle.rvs_insn.specs.declared.op.Op as mnemonic;
ghost use Rattle.rvs_index.specs.Cells.{AreBound, AsksValue, Covers, fact};
ghost use Rattle.rvs_index.specs.Shortcuts.{says};

use crate::asked::{Asked, is_named, said};
use crate::cell::NEVER;
use crate::shortcut::Shortcut;
use crate::slot::Slot;

/// The value of a fact without which it isn't so.
#[tactic(auto, using(crate::proofs::Bounding::valued_asks, crate::proofs::Bounding::first_asks, crate::proofs::Bounding::second_asks))]
fn number_in(asked: Asked, shortcut: Shortcut) -> Option<i64>
    ensures { IfSome result (λ z. (op : mnemonic.Op) (t : Table) (v : ℤ) →
        fact asked t ≡ Some v → int_eq z v ≡ false → says shortcut op t ≡ false) }
{
    match shortcut {
        Shortcut::Valued(_, name, value) => {
            if is_named(asked, name) {
                Some(value)
            } else {
                None
            }
        },
        Shortcut::Values(_, name, other, value, second) => {
            if is_named(asked, name) {
                Some(value)
            } else if is_named(asked, other) {
                Some(second)
            } else {
                None
            }
        },
        _ => None,
    }
}

/// The value of a fact without which a point isn't hit.
#[tactic(auto, using(crate::proofs::Bounding::saying_asks))]
fn asked_value(asked: Asked, slot: &Slot<'_>) -> Option<i64>
    ensures { IfSome result (AsksValue asked slot.now) }
{
    match said(asked, slot) {
        Some(value) => Some(value),
        None => match slot.shortcut {
            None => None,
            Some(shortcut) => number_in(asked, shortcut),
        },
    }
}

/// Two values, of which one more is one.
#[tactic(auto, using(crate::proofs::Bounding::covers_first, crate::proofs::Bounding::covers_second, crate::proofs::Bounding::covers_new, crate::proofs::Bounding::covers_other))]
fn with_value(value: i64, first: i64, second: i64) -> Option<(i64, i64)>
    ensures { IfSome result (λ b. Covers value first second b.0 b.1) }
{
    if value == first {
        Some((first, second))
    } else if value == second {
        Some((first, second))
    } else if first == NEVER {
        Some((value, second))
    } else if second == NEVER {
        Some((first, value))
    } else {
        None
    }
}

/// The at most two values of a fact without which no point of a list is hit.
#[tactic(auto, using(crate::proofs::Bounding::bound_none))]
pub(crate) fn bound_of(asked: Asked, slots: &[Slot<'_>]) -> Option<(i64, i64)>
    ensures { IfSome result (λ b. AreBound (length slots.now) asked slots.now b.0 b.1) }
{
    let mut first = NEVER;
    let mut second = NEVER;
    for slot in slots {
        let value = asked_value(asked, slot)?;
        let (one, other) = with_value(value, first, second)?;
        first = one;
        second = other;
    }
    Some((first, second))
}
