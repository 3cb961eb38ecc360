// What two points say together.
ghost use Rattle.std.specs.Prelude.{◌≡◌, ◌&&◌, IfSome};
ghost use Rattle.rvs_index.specs.Shortcuts.{says};
ghost use Rattle.rvs_expr.specs.Meaning.{Table};
ghost use Rattle.rvs_insn.specs.declared.op.Op as mnemonic;

use crate::shortcut::Shortcut;

/// What is so where both are, where that is signs and at most two numbers.
#[tactic(auto, using(crate::proofs::Masks::both_signs, crate::proofs::Masks::more_signs, crate::proofs::Masks::no_signs))]
pub(crate) fn joined(left: Shortcut, right: Shortcut) -> Option<Shortcut>
    ensures { IfSome result (λ s. (op : mnemonic.Op) (t : Table) →
        says s op t ≡ (says left op t && says right op t)) }
{
    match (left, right) {
        (Shortcut::Signs(mask), Shortcut::Signs(more)) => Some(Shortcut::Signs(mask | more)),
        (Shortcut::Signs(mask), Shortcut::Number(name, value)) => {
            Some(Shortcut::Valued(mask, name, value))
        },
        (Shortcut::Number(name, value), Shortcut::Signs(mask)) => {
            Some(Shortcut::Valued(mask, name, value))
        },
        (Shortcut::Number(name, value), Shortcut::Number(other, second)) => {
            Some(Shortcut::Values(0, name, other, value, second))
        },
        (Shortcut::Valued(mask, name, value), Shortcut::Signs(more)) => {
            Some(Shortcut::Valued(mask | more, name, value))
        },
        (Shortcut::Valued(mask, name, value), Shortcut::Number(other, second)) => {
            Some(Shortcut::Values(mask, name, other, value, second))
        },
        (Shortcut::Values(mask, name, other, value, second), Shortcut::Signs(more)) => {
            Some(Shortcut::Values(mask | more, name, other, value, second))
        },
        _ => None,
    }
}
