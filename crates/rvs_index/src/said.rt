// Expressions that say signs and numbers.
ghost use Rattle.std.specs.Prelude.{◌≡◌, ◌<◌, ◌&&◌, IfSome, Some, pos};
ghost use Rattle.rvs_expr.specs.Typed as typed;
ghost use Rattle.rvs_expr.specs.TypedView.{view, reg_view, reg_chain_view, num_view};
ghost use Rattle.rvs_expr.specs.Meaning.{Table, holds};
ghost use Rattle.rvs_expr.specs.Meaning.{IsNarrowFormula};
ghost use Rattle.rvs_expr.specs.declared.formula.Comparison.TheVariants.{Equal};
ghost use Rattle.rvs_expr_text.specs.declared.lexeme.NumName.TheVariants.{ImmVal};
ghost use Rattle.rvs_insn.specs.declared.op.Op as mnemonic;
ghost use Rattle.rvs_index.specs.Shortcuts.{says};
ghost use Rattle.rvs_index.specs.Signs as spec;

use crate::joined::joined;
use crate::shortcut::Shortcut;
use crate::taken::bit_of;
use rvs_expr::{Comparison, Formula, Num, NumChain, Reg, RegChain, equation_of};
use rvs_expr_text::{NumName, RegName};
use rvs_free::Free;

/// The sign that says how a number compares with 0.
#[tactic(auto, unfolding(crate::specs::Signs::signs_of))]
fn sign_of(name: NumName, op: Comparison) -> Option<usize>
    ensures says { IfSome result (λ k. (t : Table) →
        spec.compares op (t.num name) (Some (pos 0)) ≡ spec.sign_at k t) }
    ensures low { IfSome result (λ k. k < 31) }
{
    match (name, op) {
        (NumName::Rs1Val, Comparison::Below) => Some(1),
        (NumName::Rs1Val, Comparison::Equal) => Some(2),
        (NumName::Rs1Val, Comparison::Above) => Some(3),
        (NumName::Rs2Val, Comparison::Below) => Some(4),
        (NumName::Rs2Val, Comparison::Equal) => Some(5),
        (NumName::Rs2Val, Comparison::Above) => Some(6),
        (NumName::ImmVal, Comparison::Below) => Some(7),
        (NumName::ImmVal, Comparison::Equal) => Some(8),
        (NumName::ImmVal, Comparison::Above) => Some(9),
        (NumName::Rs2Val, Comparison::AtLeast) => Some(16),
        (NumName::ImmVal, Comparison::AtLeast) => Some(18),
        _ => None,
    }
}

/// The sign that says that a number is below 32.
#[tactic(auto, unfolding(crate::specs::Signs::signs_of))]
fn shift_of(name: NumName, op: Comparison) -> Option<usize>
    ensures says { IfSome result (λ k. (t : Table) →
        spec.compares op (t.num name) (Some (pos 32)) ≡ spec.sign_at k t) }
    ensures low { IfSome result (λ k. k < 31) }
{
    match (name, op) {
        (NumName::Rs2Val, Comparison::Below) => Some(17),
        (NumName::ImmVal, Comparison::Below) => Some(19),
        _ => None,
    }
}

/// The sign that says how two numbers compare.
#[tactic(auto, unfolding(crate::specs::Signs::signs_of))]
fn order_of(left: NumName, op: Comparison, right: NumName) -> Option<usize>
    ensures says { IfSome result (λ k. (t : Table) →
        spec.compares op (t.num left) (t.num right) ≡ spec.sign_at k t) }
    ensures low { IfSome result (λ k. k < 31) }
{
    match (left, op, right) {
        (NumName::Rs1Val, Comparison::Equal, NumName::Rs2Val) => Some(10),
        (NumName::Rs1Val, Comparison::Unequal, NumName::Rs2Val) => Some(11),
        (NumName::Rs1Val, Comparison::Below, NumName::Rs2Val) => Some(12),
        (NumName::Rs1Val, Comparison::Above, NumName::Rs2Val) => Some(13),
        (NumName::Rs1Val, Comparison::Equal, NumName::ImmVal) => Some(14),
        (NumName::Rs1Val, Comparison::Unequal, NumName::ImmVal) => Some(15),
        _ => None,
    }
}

/// The sign that says whether two registers are one.
#[tactic(auto, unfolding(crate::specs::Signs::signs_of))]
fn relation_of(left: RegName, equal: bool, right: RegName) -> Option<usize>
    ensures says { IfSome result (λ k. (t : Table) →
        spec.relates equal (t.reg left) (t.reg right) ≡ spec.sign_at k t) }
    ensures low { IfSome result (λ k. k < 31) }
{
    match (left, equal, right) {
        (RegName::Rd, true, RegName::Rs1) => Some(20),
        (RegName::Rd, false, RegName::Rs1) => Some(21),
        (RegName::Rd, true, RegName::Rs2) => Some(22),
        (RegName::Rd, false, RegName::Rs2) => Some(23),
        (RegName::Rs1, true, RegName::Rs2) => Some(24),
        (RegName::Rs1, false, RegName::Rs2) => Some(25),
        _ => None,
    }
}

/// The same in either order.
#[tactic(auto, using(crate::proofs::Turned::turned))]
fn relation(left: RegName, equal: bool, right: RegName) -> Option<usize>
    ensures says { IfSome result (λ k. (t : Table) →
        spec.relates equal (t.reg left) (t.reg right) ≡ spec.sign_at k t) }
    ensures low { IfSome result (λ k. k < 31) }
{
    match relation_of(left, equal, right) {
        Some(sign) => Some(sign),
        None => relation_of(right, equal, left),
    }
}

/// The sign that says which remainder by 4 the immediate has.
#[tactic(auto, using(crate::proofs::Turned::rest_says), unfolding(crate::specs::Signs::signs_of))]
fn rest_test(part: &Num, divisor: u128, op: Comparison, right: &Num) -> Option<usize>
    ensures says { IfSome result (λ k. (t : Table) → holds t
        (typed.numbers (typed.pair (typed.remainder (num_view part.now) divisor) op
        (num_view right.now))) ≡ spec.sign_at k t) }
    ensures low { IfSome result (λ k. k < 31) }
{
    match (part, divisor, op, right) {
        (Num::Name(NumName::ImmVal), 4, Comparison::Equal, Num::Literal(rest)) => match rest {
            0 => Some(27),
            1 => Some(28),
            2 => Some(29),
            3 => Some(30),
            _ => None,
        },
        _ => None,
    }
}

fn number_pair(left: &Num, op: Comparison, right: &Num) -> Option<usize>
    ensures says { IfSome result (λ k. (t : Table) → holds t (typed.numbers
        (typed.pair (num_view left.now) op (num_view right.now))) ≡ spec.sign_at k t) }
    ensures low { IfSome result (λ k. k < 31) }
{
    match left {
        Num::Name(name) => match right {
            Num::Literal(0) => sign_of(*name, op),
            Num::Literal(32) => shift_of(*name, op),
            Num::Name(other) => order_of(*name, op, *other),
            _ => None,
        },
        Num::Remainder(part, divisor) => rest_test(part, *divisor, op, right),
        _ => None,
    }
}

/// The sign that says whether two registers are one, or one is x0.
#[tactic(auto, unfolding(crate::specs::Signs::signs_of))]
fn register_pair(left: Reg, equal: bool, right: Reg) -> Option<usize>
    ensures says { IfSome result (λ k. (t : Table) → holds t (typed.registers
        (typed.reg_pair (reg_view left) equal (reg_view right))) ≡ spec.sign_at k t) }
    ensures low { IfSome result (λ k. k < 31) }
{
    match left {
        Reg::Name(name) => match right {
            Reg::Name(other) => relation(name, equal, other),
            Reg::Fixed(number) => match (name, equal, number) {
                (RegName::Rd, true, 0) => Some(26),
                _ => None,
            },
        },
        _ => None,
    }
}

/// The sign that a formula says.
fn sign_said(formula: &Formula) -> Option<usize>
    ensures says { IfSome result
        (λ k. (t : Table) → holds t (view formula.now) ≡ spec.sign_at k t) }
    ensures low { IfSome result (λ k. k < 31) }
{
    match formula {
        Formula::Numbers(NumChain::Pair(left, op, right)) => number_pair(left, *op, right),
        Formula::Registers(RegChain::Pair(left, equal, right)) => {
            register_pair(*left, *equal, *right)
        },
        _ => None,
    }
}

/// The signs that a chain of three registers says.
#[tactic(auto, using(crate::proofs::Turned::three_registers))]
fn chain_said(before: &RegChain, equal: bool, right: Reg) -> Option<Shortcut>
    ensures { IfSome result (λ s. (op : mnemonic.Op) (t : Table) →
        holds t (typed.registers
        (typed.reg_more (reg_chain_view before.now) equal (reg_view right))) ≡ says s op t) }
{
    match before {
        RegChain::Pair(left, first_equal, middle) => {
            let first = register_pair(*left, *first_equal, *middle)?;
            let second = register_pair(*middle, equal, right)?;
            joined(
                Shortcut::Signs(bit_of(first)),
                Shortcut::Signs(bit_of(second)),
            )
        },
        _ => None,
    }
}

/// The sign or the number that a formula says.
fn one_said(formula: &Formula) -> Option<Shortcut>
    requires { IsNarrowFormula (view formula.now) }
    ensures { IfSome result (λ s. (op : mnemonic.Op) (t : Table) →
        holds t (view formula.now) ≡ says s op t) }
{
    match sign_said(formula) {
        None => match equation_of(formula, Free::new()) {
            None => None,
            Some((name, value)) => Some(Shortcut::Number(name, value)),
        },
        Some(sign) => Some(Shortcut::Signs(bit_of(sign))),
    }
}

/// What a formula says, where it is a conjunction of signs and at most two numbers.
#[tactic(auto, using(crate::proofs::Turned::both_hold))]
pub(crate) fn said_by(formula: &Formula) -> Option<Shortcut>
    requires { IsNarrowFormula (view formula.now) }
    ensures { IfSome result (λ s. (op : mnemonic.Op) (t : Table) →
        holds t (view formula.now) ≡ says s op t) }
{
    match formula {
        Formula::Both(left, right) => {
            let first = said_by(left)?;
            let second = said_by(right)?;
            joined(first, second)
        },
        Formula::Registers(RegChain::More(before, equal, right)) => {
            chain_said(before, *equal, *right)
        },
        _ => one_said(formula),
    }
}
