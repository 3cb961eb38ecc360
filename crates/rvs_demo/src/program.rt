// The program of the demonstration, in memory.
ghost use Rattle.std.specs.Prelude.{◌≡◌, ◌≤◌, ◌<◌, ◌+◌, ◌%◌, ◌++◌, ◌^◌, All, IfOk, OnOk};
ghost use Rattle.std.specs.Int.{w32, to_le_bytes};
ghost use Rattle.rvs_insn.specs.Table.{row};
ghost use Rattle.rvs_insn.specs.Word.{word_of, IsEncodable};
ghost use Rattle.rvs_demo.specs.Program as spec;

use rvs_base::{Items, NoMemory};
use rvs_insn::{Insn, IsaSpec, Op, USUAL_MEMORY, encode};
use rvs_machine::Image;
use std::alloc::Global;

/// The core of the demonstration: RV32IM, without misaligned data.
pub(crate) const CORE: IsaSpec = IsaSpec {
    e: false,
    m: true,
    a: false,
    zicsr: false,
    zifencei: false,
    misaligned: false,
    address_bits: 32,
    memory: USUAL_MEMORY,
};

/// The bits that the words of the mnemonic of a number below 8 have in common.
fn drawn_bits(number: u64) -> u32
    ensures bits { result ≡ (row (spec.drawn_op number)).bits }
    ensures low { result ≤ 0x4000_7033 }
{
    match number {
        0 => 0x0000_0033,
        1 => 0x4000_0033,
        2 => 0x0000_4033,
        3 => 0x0000_6033,
        4 => 0x0000_7033,
        5 => 0x0000_2033,
        6 => 0x0000_3033,
        _ => 0x0200_0033,
    }
}

/// The word of an instruction over x8 to x15, which are all of the format R.
#[tactic(auto, using(crate::proofs::Drawn::drawn_word))]
fn drawn_word(number: u64) -> u32
    ensures { result ≡ word_of (spec.drawn number) }
{
    let rd = 8 + (number / 8 % 8) as u32;
    let rs1 = 8 + (number / 64 % 8) as u32;
    let rs2 = 8 + (number / 512 % 8) as u32;
    drawn_bits(number % 8) + 0x80 * rd + 0x8000 * rs1 + 0x10_0000 * rs2
}

/// Adds instructions that are drawn from the seeds behind one.
fn push_generated(text: &mut Vec<u8>, count: u64, seed: u64) -> Result<(), NoMemory>
    requires { seed < 2 ^ 31 }
    ensures { OnOk result (text.new.items
        ≡ text.old.items ++ spec.code (spec.generated count seed)) }
{
    let mut state = seed;
    for _ in 0..count {
        state = (state * 1_103_515_245 + 12_345) % 0x8000_0000;
        text.extend_from_slice(&drawn_word(state / 256).to_le_bytes())?;
    }
    Ok(())
}

#[tactic(auto, using(std::proofs::lemmas::List::flat_map_more))]
fn push_insns(text: &mut Vec<u8>, insns: &[Insn]) -> Result<(), NoMemory>
    requires { All IsEncodable insns.now }
    ensures { OnOk result (text.new.items ≡ text.old.items ++ spec.code insns.now) }
{
    for insn in insns {
        text.extend_from_slice(&encode(insn).to_le_bytes())?;
    }
    Ok(())
}

/// `addi` of a register's own number.
fn own_number(register: u8) -> Insn
    requires { register < 32 }
    ensures insn { result ≡ spec.own_number register }
    ensures encodable { IsEncodable result }
{
    Insn {
        op: Op::Addi,
        rd: Some(register),
        rs1: Some(0),
        rs2: None,
        imm: Some(i32::from(register)),
    }
}

/// Adds that a word of 1 is stored where it halts the run.
fn push_ending(text: &mut Vec<u8>) -> Result<(), NoMemory>
    ensures { OnOk result (text.new.items ≡ text.old.items ++ spec.code spec.ending) }
{
    let base = Insn {
        op: Op::Lui,
        rd: Some(5),
        rs1: None,
        rs2: None,
        imm: Some(0x8_1000),
    };
    let one = Insn {
        op: Op::Addi,
        rd: Some(6),
        rs1: Some(0),
        rs2: None,
        imm: Some(1),
    };
    let halt = Insn {
        op: Op::Sw,
        rd: None,
        rs1: Some(5),
        rs2: Some(6),
        imm: Some(0),
    };
    push_insns(text, &[base, one, halt])
}

/// The bytes of the program with so many generated instructions.
fn text(alloc: Global, count: u64) -> Result<Vec<u8>, NoMemory>
    requires { count ≤ 1000000 }
    ensures { IfOk result (λ text. text.items ≡ spec.code (spec.program count)) }
{
    let mut text = Vec::new(alloc);
    let beginning = [
        own_number(8),
        own_number(9),
        own_number(10),
        own_number(11),
        own_number(12),
        own_number(13),
        own_number(14),
        own_number(15),
    ];
    push_insns(&mut text, &beginning)?;
    push_generated(&mut text, count, count)?;
    push_ending(&mut text)?;
    Ok(text)
}

/// The program with so many generated instructions, in memory.
///
/// # Errors
///
/// [`NoMemory`].
pub(crate) fn image(alloc: Global, count: u64) -> Result<Image, NoMemory>
    requires { count ≤ 1000000 }
    ensures { IfOk result (λ image. image ≡ spec.image count) }
{
    let text = Items::from(text(alloc, count)?);
    let data = Items::from([0; 8].to_vec(alloc)?);
    let symbols = Items::new(alloc);
    let data_base = USUAL_MEMORY.data_base;
    match Image::new(
        USUAL_MEMORY,
        text,
        data,
        data_base,
        data_base,
        data_base,
        symbols,
    ) {
        Some(image) => Ok(image),
        None => unreachable!(),
    }
}
