// How many bytes of code the cases of a test have.
ghost use Rattle.std.specs.Prelude.{◌≡◌, ◌≤◌, ◌+◌, ◌^◌, ℕ, [], length};
ghost use Rattle.rvs_insn.specs.Fields.{Fields};
ghost use Rattle.rvs_points.specs.Limits.{most_points};
ghost use Rattle.rvs_test_text.specs.TestText as layout;
ghost use Rattle.rvs_test_text.specs.TestText.{bytes_all};
ghost use Rattle.rvs_test_text.specs.Claim.{AreReady};

use crate::frame_lines::between;
use rvs_insn::{Format, IsaSpec, Op, format};
use rvs_solver::{Choice, Solved};

fn source_bytes(register: Option<u8>) -> u64
    ensures value { (word : ℕ) → result ≡ bytes_all (layout.source register word) }
    ensures low { result ≤ 8 }
{
    match register {
        None => 0,
        Some(_) => 8,
    }
}

/// The words of both source registers.
fn sources(choice: &Choice) -> u64
    ensures value { result ≡ bytes_all (layout.source choice.now.rs1 choice.now.w1)
        + bytes_all (layout.source choice.now.rs2 choice.now.w2) }
    ensures low { result ≤ 16 }
{
    source_bytes(choice.rs1) + source_bytes(choice.rs2)
}

fn plain_bytes(choice: &Choice) -> u64
    ensures { (k : ℕ) → result ≡ bytes_all (layout.plain_case k choice.now) }
{
    sources(choice) + 20
}

fn store_bytes(choice: &Choice) -> u64
    ensures { (k : ℕ) → result ≡ bytes_all (layout.store_case k choice.now) }
{
    sources(choice) + 68
}

fn reserve_bytes(op: Op) -> u64
    ensures value { (address m : ℕ) → result ≡ bytes_all (layout.reserve op address m) }
    ensures low { result ≤ 4 }
{
    match op {
        Op::ScW => 4,
        _ => 0,
    }
}

fn atomic_bytes(choice: &Choice) -> u64
    ensures { (k : ℕ) → result ≡ bytes_all (layout.atomic_case k choice.now) }
{
    sources(choice) + reserve_bytes(choice.op) + 60
}

fn forward_bytes(words: u32) -> u64
    ensures value { (k m : ℕ) (jump : Fields)
        → result ≡ bytes_all (layout.forward_frame words k m jump []) }
    ensures low { result ≤ 2 ^ 35 }
{
    8 + 4 * u64::from(words)
}

fn backward_bytes(words: u32) -> u64
    ensures value { (k m : ℕ) (jump : Fields)
        → result ≡ bytes_all (layout.backward_frame words k m jump []) }
    ensures low { result ≤ 2 ^ 35 }
{
    16 + 4 * u64::from(words)
}

fn frame_bytes(imm: i32) -> u64
    ensures value { (k m : ℕ) (jump : Fields) → result ≡ bytes_all (layout.frame imm k m jump []) }
    ensures low { result ≤ 2 ^ 35 }
{
    if imm < 0 {
        backward_bytes(between(imm))
    } else {
        forward_bytes(between(imm))
    }
}

fn jump_bytes(choice: &Choice) -> u64
    ensures { (k : ℕ) → result ≡ bytes_all (layout.jump_case k choice.now) }
{
    sources(choice) + frame_bytes(choice.imm.unwrap_or(0)) + 16
}

fn choice_bytes(choice: &Choice) -> u64
    ensures { (k : ℕ) → result ≡ bytes_all (layout.choice_statements k choice.now) }
{
    match format(choice.op) {
        Format::Branch | Format::Jump => jump_bytes(choice),
        Format::Store => store_bytes(choice),
        Format::JumpReg => 44,
        Format::Amo => atomic_bytes(choice),
        Format::LoadReserved => atomic_bytes(choice),
        _ => plain_bytes(choice),
    }
}

/// How many bytes of code a case has, whatever its number.
pub(crate) fn case_bytes(solved: &Solved) -> u64
    ensures { (k : ℕ) → result ≡ bytes_all (layout.case_statements k solved.now) }
{
    match solved {
        Solved::One(choice) => choice_bytes(choice),
        Solved::Many(places) => 80 + 4 * places.as_slice().len() as u64,
    }
}

/// How many bytes of code a test has.
pub(crate) fn code_bytes(spec: &IsaSpec, cases: &[Solved]) -> u64
    requires few { length cases.now ≤ most_points }
    requires ready { AreReady spec.now cases.now }
    ensures { result ≡ bytes_all (layout.code_part spec.now cases.now) }
{
    let registers = if spec.e { 15 } else { 31 };
    let mut bytes = 4 * registers + 20;
    for solved in cases {
        bytes += case_bytes(solved);
    }
    bytes
}
