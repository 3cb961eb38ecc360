// Names that stand in formulas.
ghost use Rattle.std.specs.Prelude.{◌≡◌, ◌||◌};
ghost use Rattle.rvs_expr.specs.TypedView.{reg_view, reg_chain_view, view};
ghost use Rattle.rvs_expr.specs.Named as spec;

use crate::formula::{Formula, Reg, RegChain};
use crate::parts::uses;
use rvs_expr_text::{NumName, RegName};

/// Which names stand in a formula.
#[derive(Clone, Copy)]
pub(crate) struct Names {
    pub(crate) rs1_val: bool,
    pub(crate) rs2_val: bool,
    pub(crate) imm_val: bool,
    pub(crate) ea_align: bool,
    /// Whether any name of a register does.
    pub(crate) registers: bool,
    pub(crate) rd: bool,
    pub(crate) rs1: bool,
    pub(crate) rs2: bool,
    pub(crate) var0: bool,
    pub(crate) var1: bool,
    pub(crate) var2: bool,
}

fn same_reg(left: RegName, right: RegName) -> bool
    ensures { result ≡ spec.same_reg left right }
{
    match left {
        RegName::Rd => matches!(right, RegName::Rd),
        RegName::Rs1 => matches!(right, RegName::Rs1),
        RegName::Rs2 => matches!(right, RegName::Rs2),
        RegName::Var0 => matches!(right, RegName::Var0),
        RegName::Var1 => matches!(right, RegName::Var1),
        RegName::Var2 => matches!(right, RegName::Var2),
    }
}

fn is_reg(reg: Reg, name: RegName) -> bool
    ensures { result ≡ spec.is_reg (reg_view reg) name }
{
    match reg {
        Reg::Fixed(_) => false,
        Reg::Name(own) => same_reg(own, name),
    }
}

fn chain_uses_reg(chain: &RegChain, name: RegName) -> bool
    ensures { result ≡ spec.chain_uses_reg (reg_chain_view chain.now) name }
{
    match chain {
        RegChain::Pair(left, _, right) => is_reg(*left, name) || is_reg(*right, name),
        RegChain::More(before, _, right) => chain_uses_reg(before, name) || is_reg(*right, name),
    }
}

/// Whether the name of a register stands in the formula.
fn uses_reg(formula: &Formula, name: RegName) -> bool
    ensures { result ≡ spec.uses_reg (view formula.now) name }
{
    match formula {
        Formula::Numbers(_) => false,
        Formula::Registers(chain) => chain_uses_reg(chain, name),
        Formula::Negation(part) => uses_reg(part, name),
        Formula::Both(left, right) | Formula::Either(left, right) => {
            uses_reg(left, name) || uses_reg(right, name)
        }
    }
}

/// The names that stand in the formula.
#[tactic(auto, unfolding(crate::specs::Named::names_of))]
pub(crate) fn names_of(formula: &Formula) -> Names
    ensures { result ≡ spec.names_of (view formula.now) }
{
    let rd = uses_reg(formula, RegName::Rd);
    let rs1 = uses_reg(formula, RegName::Rs1);
    let rs2 = uses_reg(formula, RegName::Rs2);
    let var0 = uses_reg(formula, RegName::Var0);
    let var1 = uses_reg(formula, RegName::Var1);
    let var2 = uses_reg(formula, RegName::Var2);
    Names {
        rs1_val: uses(formula, NumName::Rs1Val),
        rs2_val: uses(formula, NumName::Rs2Val),
        imm_val: uses(formula, NumName::ImmVal),
        ea_align: uses(formula, NumName::EaAlign),
        registers: any(rd, rs1, rs2, var0, var1, var2),
        rd,
        rs1,
        rs2,
        var0,
        var1,
        var2,
    }
}

fn any(rd: bool, rs1: bool, rs2: bool, var0: bool, var1: bool, var2: bool) -> bool
    ensures { result ≡ (rd || (rs1 || (rs2 || (var0 || (var1 || var2))))) }
{
    rd || rs1 || rs2 || var0 || var1 || var2
}
