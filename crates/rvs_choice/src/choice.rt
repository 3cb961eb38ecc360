// Choices.
ghost use Rattle.std.specs.Prelude.{◌≡◌, ◌<◌, IfSome};
ghost use Rattle.rvs_choice.specs.Choice.{IsNarrow, table_of, base_value, fields_of};

use rvs_expr::{Facts, NumName, RegName};
use rvs_facts::InsnFacts;
use rvs_insn::{Format, Insn, Op, format};
use std::marker::Model;

/// What makes a case: a mnemonic, its registers, and the numbers that they read.
///
/// A register or an immediate is there exactly where the mnemonic's format has it; registers are
/// below 32, by an invariant of the type. An alignment and a word that the format doesn't use
/// are 0.
#[derive(Clone, Copy)]
pub struct Choice {
    /// The mnemonic.
    pub op: Op,
    /// The register that it writes.
    pub rd: Option<u8>,
    /// Its first source register.
    pub rs1: Option<u8>,
    /// Its second source register.
    pub rs2: Option<u8>,
    /// Its immediate, as in [`Insn`].
    pub imm: Option<i32>,
    /// How many bytes behind a multiple of 4 a load or a store accesses memory.
    pub align: u8,
    /// The word of `rs1`.
    pub w1: u32,
    /// The word of `rs2`.
    pub w2: u32,
}

impl Model for Choice {
    ghost use Rattle.rvs_insn.specs.Fields.{IsRegister};
    ghost use Rattle.rvs_choice.specs.Choice.{ChoiceValue};

    ghost Value = { ChoiceValue };

    ghost view = { λ c. record {
      op = c.op;
      rd = c.rd;
      rs1 = c.rs1;
      rs2 = c.rs2;
      imm = c.imm;
      align = c.align;
      w1 = c.w1;
      w2 = c.w2;
    } };

    ghost invariant = { λ c. IsRegister c.rd × IsRegister c.rs1 × IsRegister c.rs2 };

    ghost inverse = { λ c. record {
      op = c.op;
      rd = c.rd;
      rs1 = c.rs1;
      rs2 = c.rs2;
      imm = c.imm;
      align = c.align;
      w1 = c.w1;
      w2 = c.w2;
    } };
}

impl Choice {
    /// The instruction.
    pub fn insn(&self) -> Insn
        ensures { result ≡ fields_of self.now }
    {
        Insn {
            op: self.op,
            rd: self.rd,
            rs1: self.rs1,
            rs2: self.rs2,
            imm: self.imm,
        }
    }
}

impl Facts for Choice {
    ghost use Rattle.rvs_choice.specs.Choice.{table_of};

    ghost table = { table_of };

    fn reg(&self, name: RegName) -> Option<u8>
        ensures value { result ≡ (table_of self.now).reg name }
        ensures small { IfSome result (λ n. n < 32) }
    {
        match name {
            RegName::Rd => self.rd,
            RegName::Rs1 => self.rs1,
            RegName::Rs2 => self.rs2,
            _ => None,
        }
    }

    fn num(&self, name: NumName) -> Option<i64>
        ensures value { result ≡ (table_of self.now).num name }
        ensures small { IfSome result IsNarrow }
    {
        let insn = self.insn();
        let facts = InsnFacts {
            insn: &insn,
            first: self.w1,
            second: self.w2,
        };
        match name {
            NumName::Rs1Val => without_base(format(self.op), facts.num(name)),
            _ => facts.num(name),
        }
    }
}

/// The base of a `jalr` is set from a label, so it is no value of the choice.
fn without_base(form: Format, value: Option<i64>) -> Option<i64>
    requires { IfSome value IsNarrow }
    ensures value { result ≡ base_value form value }
    ensures small { IfSome result IsNarrow }
{
    match form {
        Format::JumpReg => None,
        _ => value,
    }
}
