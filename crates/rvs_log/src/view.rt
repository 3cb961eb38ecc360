// The facts of an instruction in a log.
ghost use Rattle.std.specs.Prelude.{◌≡◌};
ghost use Rattle.rvs_insn.specs.Fields.{IsRegister};
ghost use Rattle.rvs_log.specs.Seen.{facts_before};
ghost use Rattle.rvs_machine.specs.Traces.{word_of};

use crate::reading::Record;
use crate::registers::Registers;
use rvs_expr::{Facts, NumName, RegName};
use rvs_facts::InsnFacts;
use rvs_insn::Insn;

/// An instruction in a log, with the registers before it. It copies neither.
#[derive(Clone, Copy)]
pub struct View<'t> {
    /// The instruction.
    pub entry: &'t Record<'t>,
    /// The registers before it.
    pub before: &'t Registers,
}

/// The word of a register, or 0 where there is none.
fn word(before: &Registers, register: Option<u8>) -> u32
    requires { IsRegister register }
    ensures { result ≡ word_of before.now register }
{
    match register {
        None => 0,
        Some(register) => before.get(register),
    }
}

/// An instruction with the words that its source registers held before it. It takes no memory.
pub fn facts_of<'i>(insn: &'i Insn, before: &Registers) -> InsnFacts<'i>
    ensures insn { result.insn.now ≡ insn.now }
    ensures first { result.first ≡ word_of before.now insn.now.rs1 }
    ensures second { result.second ≡ word_of before.now insn.now.rs2 }
{
    InsnFacts {
        insn,
        first: word(before, insn.rs1),
        second: word(before, insn.rs2),
    }
}

impl Facts for View<'_> {
    ghost use Rattle.rvs_log.specs.Seen.{facts_before};

    ghost table = { λ v. facts_before v.entry.now.insn v.before.now };

    fn reg(&self, name: RegName) -> Option<u8> {
        match &self.entry.insn {
            None => None,
            Some(insn) => facts_of(insn, self.before).reg(name),
        }
    }

    fn num(&self, name: NumName) -> Option<i64> {
        match &self.entry.insn {
            None => None,
            Some(insn) => facts_of(insn, self.before).num(name),
        }
    }
}
