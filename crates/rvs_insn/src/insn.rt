// Instructions.
use crate::op::Op;
use std::marker::Model;

/// An instruction: its mnemonic and its operands. A register or an immediate is there exactly where
/// the mnemonic's format has it; registers are below 32, by an invariant of the type.
///
/// The immediate is the number that the manual's semantics adds or compares: sign-extended, a
/// distance in bytes for branches and jumps, the 20-bit field for `lui` and `auipc`, and 0 to 31
/// for a shift.
#[derive(Clone, Copy)]
pub struct Insn {
    pub op: Op,
    pub rd: Option<u8>,
    pub rs1: Option<u8>,
    pub rs2: Option<u8>,
    pub imm: Option<i32>,
}

impl Model for Insn {
    ghost use Rattle.rvs_insn.specs.Fields.{Fields, IsRegister};

    ghost Value = { Fields };

    ghost view = { λ i. record { op = i.op; rd = i.rd; rs1 = i.rs1; rs2 = i.rs2; imm = i.imm } };

    ghost invariant = { λ i. IsRegister i.rd × IsRegister i.rs1 × IsRegister i.rs2 };

    ghost inverse = { λ i. record { op = i.op; rd = i.rd; rs1 = i.rs1; rs2 = i.rs2; imm = i.imm } };
}
