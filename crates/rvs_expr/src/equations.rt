// Formulas that say that a name has one value.
ghost use Rattle.std.specs.Prelude.{◌≡◌, ◌≤◌, ◌^◌, IfOk, IfSome};
ghost use Rattle.rvs_expr.specs.TypedView.{num_view, view};
ghost use Rattle.rvs_expr.specs.Equated as spec;
ghost use Rattle.rvs_expr.specs.Equation.{number_of};
ghost use Rattle.rvs_expr.specs.Meaning.{IsNarrow, IsNarrowFormula, Table, holds, nothing, value};

use crate::evaluating::constant_of;
use crate::formula::{Comparison, Formula, Num, NumChain};
use rvs_base::NoMemory;
use rvs_expr_text::NumName;
use rvs_free::Free;
use std::alloc::Global;

/// A number as a text spells it: one below 0 is the negation of a literal.
pub(crate) fn signed(alloc: Global, value: i64) -> Result<Num, NoMemory>
    ensures view { IfOk result (λ n. num_view n ≡ number_of value) }
    ensures narrow { IfOk result (λ n. IsNarrow (num_view n)) }
{
    let value = value as i128;
    if value < 0 {
        let part = Box::new(alloc, Num::Literal(-value))?;
        Ok(Num::Minus(part))
    } else {
        Ok(Num::Literal(value))
    }
}

/// The value of a part without names, where it is from -2^32 to 2^32.
fn constant(num: &Num) -> Option<i64>
    requires { IsNarrow (num_view num.now) }
    ensures { result ≡ spec.small (value nothing (num_view num.now)) }
{
    let value = constant_of(num)?;
    if value.unsigned_abs() <= 1 << 32 {
        Some(value as i64)
    } else {
        None
    }
}

/// The name and the constant of a formula that says that they are equal.
pub(crate) fn equation(formula: &Formula) -> Option<(NumName, i64)>
    requires { IsNarrowFormula (view formula.now) }
    ensures { result ≡ spec.equated (view formula.now) }
{
    match formula {
        Formula::Numbers(NumChain::Pair(Num::Name(name), Comparison::Equal, right)) => {
            Some((*name, constant(right)?))
        }
        _ => None,
    }
}

/// The same of a formula that is part of an expression. It takes no memory.
pub fn equation_of(formula: &Formula, _free: Free) -> Option<(NumName, i64)>
    requires { IsNarrowFormula (view formula.now) }
    ensures shape { result ≡ spec.equated (view formula.now) }
    ensures means { IfSome result (λ e. (t : Table) →
        holds t (view formula.now) ≡ spec.is_value e.1 (t.num e.0)) }
{
    equation(formula)
}
