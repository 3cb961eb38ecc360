// The facts of an instruction.
ghost use Rattle.std.specs.Prelude.{◌≡◌, ◌<◌, ◌≤◌, ◌^◌, IfSome, unsigned_abs};
ghost use Rattle.rvs_facts.specs.Facts as spec;
ghost use Rattle.rvs_insn.specs.Table.{row};

use rvs_base::{signed32, unsigned32};
use rvs_expr::{Facts, NumName, RegName};
use rvs_insn::{Format, Insn, format, reads_unsigned};

/// An instruction with what its source registers hold before it, as a table of facts.
///
/// The registers are its fields. `rs1_val` and `rs2_val` are there exactly where its format has
/// the register, and are read with a sign but where the table says otherwise (`sltu`, `divu` and
/// their like). `imm_val` is its immediate, and `ea_align`, for loads and stores alone, the
/// remainder of the address by 4. It copies nothing, and takes no memory.
#[derive(Clone, Copy)]
pub struct InsnFacts<'i> {
    /// The instruction.
    pub insn: &'i Insn,
    /// The word of its first source register; any word where it has none.
    pub first: u32,
    /// The word of its second source register; any word where it has none.
    pub second: u32,
}

/// A word as a number.
fn number(unsigned: bool, word: u32) -> i64
    ensures value { result ≡ spec.number_of unsigned word }
    ensures small { unsigned_abs result < 2 ^ 32 }
{
    if unsigned {
        unsigned32(word)
    } else {
        signed32(word)
    }
}

/// The number that a register holds, where there is one.
fn value(unsigned: bool, register: Option<u8>, word: u32) -> Option<i64>
    ensures value { result ≡ spec.value_of unsigned register word }
    ensures small { IfSome result (λ n. unsigned_abs n < 2 ^ 32) }
{
    match register {
        None => None,
        Some(_) => Some(number(unsigned, word)),
    }
}

fn first_value(insn: &Insn, word: u32) -> Option<i64>
    ensures value { result ≡ spec.first_value insn.now word }
    ensures small { IfSome result (λ n. unsigned_abs n < 2 ^ 32) }
{
    value(reads_unsigned(insn.op).0, insn.rs1, word)
}

fn second_value(insn: &Insn, word: u32) -> Option<i64>
    ensures value { result ≡ spec.second_value insn.now word }
    ensures small { IfSome result (λ n. unsigned_abs n < 2 ^ 32) }
{
    value(reads_unsigned(insn.op).1, insn.rs2, word)
}

fn immediate(insn: &Insn) -> Option<i64>
    ensures value { result ≡ insn.now.imm }
    ensures small { IfSome result (λ n. unsigned_abs n < 2 ^ 32) }
{
    match insn.imm {
        None => None,
        Some(imm) => Some(i64::from(imm)),
    }
}

/// The place of an address within its word.
fn place_in_word(base: Option<i64>, offset: Option<i64>) -> Option<i64>
    requires base { IfSome base (λ n. unsigned_abs n < 2 ^ 32) }
    requires offset { IfSome offset (λ n. unsigned_abs n < 2 ^ 32) }
    ensures value { result ≡ spec.place_in_word base offset }
    ensures small { IfSome result (λ n. unsigned_abs n < 2 ^ 32) }
{
    let base = base?;
    let offset = offset?;
    Some((base + offset).rem_euclid(4))
}

/// The place of the address within its word, for loads and stores.
fn alignment(insn: &Insn, word: u32) -> Option<i64>
    ensures value { result ≡ spec.alignment (row insn.now.op).form
        (spec.first_value insn.now word) insn.now.imm }
    ensures small { IfSome result (λ n. unsigned_abs n < 2 ^ 32) }
{
    match format(insn.op) {
        Format::Load | Format::Store => place_in_word(first_value(insn, word), immediate(insn)),
        _ => None,
    }
}

impl Facts for InsnFacts<'_> {
    ghost use Rattle.rvs_facts.specs.Facts.{facts_of};

    ghost table = { λ f. facts_of f.insn.now f.first f.second };

    fn reg(&self, name: RegName) -> Option<u8> {
        let insn = self.insn;
        match name {
            RegName::Rd => insn.rd,
            RegName::Rs1 => insn.rs1,
            RegName::Rs2 => insn.rs2,
            _ => None,
        }
    }

    fn num(&self, name: NumName) -> Option<i64> {
        match name {
            NumName::Rs1Val => first_value(self.insn, self.first),
            NumName::Rs2Val => second_value(self.insn, self.second),
            NumName::ImmVal => immediate(self.insn),
            NumName::EaAlign => alignment(self.insn, self.first),
        }
    }
}
