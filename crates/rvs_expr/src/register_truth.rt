// Values of formulas over registers alone, from the facts themselves.
ghost use Rattle.std.specs.Prelude.{◌≡◌, ◌&&◌, ◌||◌, true};
ghost use Rattle.rvs_expr.specs.TypedView.{reg_view, reg_chain_view, view};
ghost use Rattle.rvs_expr.specs.Meaning as spec;
ghost use Rattle.rvs_expr.specs.Only as only;
ghost use Rattle.rvs_expr.specs.Typed.{registers};

use crate::evaluating::equation;
use crate::facts::Facts;
use crate::formula::{Formula, Reg, RegChain};

/// Whether no chain of numbers stands in a formula.
pub(crate) fn only_registers(formula: &Formula) -> bool
    ensures { result ≡ only.only_registers (view formula.now) }
{
    match formula {
        Formula::Numbers(_) => false,
        Formula::Registers(_) => true,
        Formula::Negation(part) => only_registers(part),
        Formula::Both(left, right) | Formula::Either(left, right) => {
            only_registers(left) && only_registers(right)
        }
    }
}

/// The register that a name or a literal stands for, where it is there.
#[inline(always)]
fn number<F: Facts>(reg: Reg, facts: &F) -> Option<u8>
    ensures { result ≡ spec.reg_value (F.table facts.now) (reg_view reg) }
{
    match reg {
        Reg::Fixed(number) => Some(number),
        Reg::Name(name) => facts.reg(name),
    }
}

/// Whether all equations of a chain hold, and its last register, where all registers are there.
fn linked<F: Facts>(chain: &RegChain, facts: &F) -> Option<(bool, u8)>
    ensures { result ≡ spec.reg_chain (F.table facts.now) (reg_chain_view chain.now) }
{
    match chain {
        RegChain::Pair(left, op, right) => {
            let x = number(*left, facts)?;
            let y = number(*right, facts)?;
            Some((equation(*op, x, y), y))
        }
        RegChain::More(before, op, right) => {
            let (good, last) = linked(before, facts)?;
            let y = number(*right, facts)?;
            Some((good && equation(*op, last, y), y))
        }
    }
}

/// The value of a chain. One equation, which most chains are, costs no call.
#[inline(always)]
fn chain_truth<F: Facts>(chain: &RegChain, facts: &F) -> Option<bool>
    ensures { result ≡ spec.truth (F.table facts.now)
        (registers (reg_chain_view chain.now)) }
{
    match chain {
        RegChain::Pair(left, op, right) => {
            let x = number(*left, facts)?;
            let y = number(*right, facts)?;
            Some(equation(*op, x, y))
        }
        RegChain::More(_, _, _) => {
            let (good, _) = linked(chain, facts)?;
            Some(good)
        }
    }
}

/// The value of two parts with `and` between.
#[inline(always)]
fn both(left: Option<bool>, right: Option<bool>) -> Option<bool>
    ensures { result ≡ spec.both (λ x y. x && y) left right }
{
    Some(left? & right?)
}

/// The value of two parts with `or` between.
#[inline(always)]
fn either(left: Option<bool>, right: Option<bool>) -> Option<bool>
    ensures { result ≡ spec.both (λ x y. x || y) left right }
{
    Some(left? | right?)
}

/// The value of a formula over registers alone, where all its registers are there.
#[cycle(registers)]
fn truth<F: Facts>(formula: &Formula, facts: &F) -> Option<bool>
    requires { only.only_registers (view formula.now) ≡ true }
    ensures { result ≡ spec.truth (F.table facts.now) (view formula.now) }
{
    match formula {
        Formula::Numbers(_) => None,
        Formula::Registers(chain) => chain_truth(chain, facts),
        Formula::Negation(part) => Some(!part_truth(part, facts)?),
        Formula::Both(left, right) => both(part_truth(left, facts), part_truth(right, facts)),
        Formula::Either(left, right) => either(part_truth(left, facts), part_truth(right, facts)),
    }
}

/// The same, where a chain costs no call.
#[cycle(registers)]
#[inline(always)]
fn part_truth<F: Facts>(formula: &Formula, facts: &F) -> Option<bool>
    requires { only.only_registers (view formula.now) ≡ true }
    ensures { result ≡ spec.truth (F.table facts.now) (view formula.now) }
{
    match formula {
        Formula::Registers(chain) => chain_truth(chain, facts),
        _ => truth(formula, facts),
    }
}

/// The same, where two chains with `and` or `or` between cost no call either.
#[inline(always)]
pub(crate) fn register_truth<F: Facts>(formula: &Formula, facts: &F) -> Option<bool>
    requires { only.only_registers (view formula.now) ≡ true }
    ensures { result ≡ spec.truth (F.table facts.now) (view formula.now) }
{
    match formula {
        Formula::Registers(chain) => chain_truth(chain, facts),
        Formula::Both(left, right) => both(part_truth(left, facts), part_truth(right, facts)),
        Formula::Either(left, right) => either(part_truth(left, facts), part_truth(right, facts)),
        _ => truth(formula, facts),
    }
}

/// Whether a value is there and true.
#[inline(always)]
pub(crate) fn defined_and_true(value: Option<bool>) -> bool
    ensures { result ≡ spec.is_true value }
{
    matches!(value, Some(true))
}
