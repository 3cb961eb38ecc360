// The values of names, read from facts.
ghost use Rattle.std.specs.Prelude.{◌≡◌, ◌≤◌, ◌^◌, pos, All, IfSome, option_map, unsigned_abs};
ghost use Rattle.rvs_expr.specs.Named as spec;

use crate::facts::Facts;
use crate::names::Names;
use rvs_expr_text::{NumName, RegName};

/// The values of the names of a formula, each at its place; those of others are 0.
#[derive(Drop)]
pub(crate) struct Values {
    pub(crate) nums: [i64; 4],
    pub(crate) regs: [u8; 6],
    ghost small: { All (λ z. unsigned_abs z ≤ 2 ^ 32) nums },
}

/// The number of a name that stands in the formula.
fn asked_num<F: Facts>(facts: &F, stands: bool, name: NumName) -> Option<i64>
    ensures value { result ≡ spec.asked stands (pos 0) ((F.table facts.now).num name) }
    ensures small { IfSome result (λ z. unsigned_abs z ≤ 2 ^ 32) }
{
    if stands { facts.num(name) } else { Some(0) }
}

/// The register of a name that stands in the formula.
fn asked_reg<F: Facts>(facts: &F, stands: bool, name: RegName) -> Option<u8>
    ensures { result ≡ spec.asked stands 0 ((F.table facts.now).reg name) }
{
    if stands { facts.reg(name) } else { Some(0) }
}

/// The numbers of the names that stand in the formula, where all are there.
#[tactic(auto, unfolding(crate::specs::Named::nums_of), using(crate::proofs::Reading::all_four))]
fn read_nums<F: Facts>(names: &Names, facts: &F) -> Option<[i64; 4]>
    ensures value { result ≡ spec.nums_of names.now (F.table facts.now) }
    ensures small { IfSome result (λ zs. All (λ z. unsigned_abs z ≤ 2 ^ 32) zs) }
{
    let rs1_val = asked_num(facts, names.rs1_val, NumName::Rs1Val)?;
    let rs2_val = asked_num(facts, names.rs2_val, NumName::Rs2Val)?;
    let imm_val = asked_num(facts, names.imm_val, NumName::ImmVal)?;
    let ea_align = asked_num(facts, names.ea_align, NumName::EaAlign)?;
    Some([rs1_val, rs2_val, imm_val, ea_align])
}

#[tactic(auto, unfolding(crate::specs::Named::asked_regs))]
fn asked_regs<F: Facts>(names: &Names, facts: &F) -> Option<[u8; 6]>
    ensures { result ≡ spec.asked_regs names.now (F.table facts.now) }
{
    let rd = asked_reg(facts, names.rd, RegName::Rd)?;
    let rs1 = asked_reg(facts, names.rs1, RegName::Rs1)?;
    let rs2 = asked_reg(facts, names.rs2, RegName::Rs2)?;
    let var0 = asked_reg(facts, names.var0, RegName::Var0)?;
    let var1 = asked_reg(facts, names.var1, RegName::Var1)?;
    let var2 = asked_reg(facts, names.var2, RegName::Var2)?;
    Some([rd, rs1, rs2, var0, var1, var2])
}

/// The registers of the names that stand in the formula, where all are there.
fn read_regs<F: Facts>(names: &Names, facts: &F) -> Option<[u8; 6]>
    ensures { result ≡ spec.regs_of names.now (F.table facts.now) }
{
    if names.registers {
        asked_regs(names, facts)
    } else {
        Some([0, 0, 0, 0, 0, 0])
    }
}

/// The values of the names that stand in the formula, where all are there.
pub(crate) fn read<F: Facts>(names: &Names, facts: &F) -> Option<Values>
    ensures { option_map (λ v. (v.nums, v.regs)) result ≡ spec.read names.now (F.table facts.now) }
{
    let nums = read_nums(names, facts)?;
    let regs = read_regs(names, facts)?;
    Some(Values { nums, regs })
}
