// The names of the expressions of a cross point.
ghost use Rattle.std.specs.Prelude.{◌≡◌, ◌<◌, All, IfSome};
ghost use Rattle.std.proofs.Props.{props};
ghost use Rattle.rvs_expr.specs.Total.{reg_place};
ghost use Rattle.rvs_cross.specs.Listed.{registers_of};

use crate::values::Values;
use rvs_expr::{Facts, NumName, RegName};
use rvs_insn::Insn;

/// An instruction's registers, and what variables stand for: each name at its place, so that a
/// look-up is one read.
#[derive(Drop)]
pub(crate) struct Named {
    pub(crate) registers: [Option<u8>; 6],
    ghost low: { All (λ r. IfSome r (λ n. n < 32)) registers } by { Prim.hlevel props },
}

/// The names at an instruction.
#[inline(always)]
pub(crate) fn names_at(values: &Values, insn: &Insn) -> Named
    ensures { result.registers ≡ registers_of values.now insn.now }
{
    let registers = [
        insn.rd,
        insn.rs1,
        insn.rs2,
        values.first,
        values.second,
        values.third,
    ];
    Named { registers }
}

#[inline(always)]
fn place(name: RegName) -> usize
    ensures place { result ≡ reg_place name }
    ensures within { result < 6 }
{
    name as usize
}

impl Facts for Named {
    ghost use Rattle.rvs_cross.specs.Listed.{listed};

    ghost table = { λ f. listed f.registers };

    #[inline(always)]
    fn reg(&self, name: RegName) -> Option<u8> {
        self.registers[place(name)]
    }

    #[inline(always)]
    fn num(&self, _: NumName) -> Option<i64> {
        None
    }
}
