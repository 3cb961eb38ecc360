// What the search asks of an expression.
ghost use Rattle.std.specs.Prelude.{◌≡◌, ◌+◌, IfOk, All, option_map};
ghost use Rattle.rvs_expr.specs.TypedView.{view};
ghost use Rattle.rvs_solver.specs.Choices.{table_of};
ghost use Rattle.rvs_solver.specs.Truth.{IsNarrow, holds, uses, constants_in, part_of};

use rvs_base::NoMemory;
use rvs_choice::Choice;
use rvs_expr::{Expr, NumName, Steps};
use std::alloc::Global;
use std::sync::ledger::Ledger;

/// Whether a choice makes the expression true. It is one step.
#[tactic(auto, unfolding(crate::specs::Truth::holds))]
pub(crate) fn is_true<L: Ledger>(expr: &Expr, choice: &Choice, steps: &mut Steps<L>) -> bool
    ensures value { result ≡ holds (view expr.now) (table_of choice.now) }
    ensures step { steps.new ≡ steps.old + 1 }
{
    expr.eval(choice, steps)
}

/// Whether the name stands in the expression.
#[tactic(auto, unfolding(crate::specs::Truth::uses))]
pub(crate) fn uses(expr: &Expr, name: NumName) -> bool
    ensures { result ≡ uses (view expr.now) name }
{
    expr.uses(name)
}

/// The constants of the expression.
#[tactic(auto, unfolding(crate::specs::Truth::constants_in))]
pub(crate) fn constants(expr: &Expr) -> &[i64]
    ensures value { result.now ≡ constants_in (view expr.now) }
    ensures narrow { All IsNarrow result.now }
{
    expr.constants()
}

/// The conjunction of the conjuncts that name nothing but these.
#[tactic(auto, unfolding(crate::specs::Truth::part_of))]
pub(crate) fn part(alloc: Global, expr: &Expr, names: &[NumName]) -> Result<Option<Expr>, NoMemory>
    ensures { IfOk result (λ p. option_map view p ≡ part_of names.now (view expr.now)) }
{
    expr.part(alloc, names)
}
