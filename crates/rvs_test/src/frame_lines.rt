// The frame of a jump, as statements.
ghost use Rattle.std.specs.Prelude.{◌≡◌, ◌<◌, ◌++◌, [], OnOk, Some, pos};
ghost use Rattle.rvs_test_text.specs.TestText as spec;

use crate::shorthands::{addi, jal};
use rvs_base::NoMemory;
use rvs_insn::Insn;
use rvs_solver::Choice;
use rvs_test_text::{Name, Statement};

/// The jump of a case before it is linked.
pub(crate) fn unlinked(choice: &Choice) -> Insn
    ensures { result ≡ spec.unlinked choice.now }
{
    Insn {
        op: choice.op,
        rd: choice.rd,
        rs1: choice.rs1,
        rs2: choice.rs2,
        imm: Some(0),
    }
}

/// How many words lie between a jump and its target.
pub(crate) fn between(imm: i32) -> u32
    ensures { result ≡ spec.between imm }
{
    (imm.unsigned_abs() / 4).saturating_sub(1)
}

fn add_filler(list: &mut Vec<Statement>, words: u32) -> Result<(), NoMemory>
    ensures { OnOk result (list.new.items ≡ list.old.items ++ spec.filler words) }
{
    if words > 0 {
        list.push(Statement::Nops(words))?;
    }
    Ok(())
}

/// The marker's second line, and a filler.
fn add_skip(list: &mut Vec<Statement>, m: u8, words: u32) -> Result<(), NoMemory>
    requires { m < 32 }
    ensures { OnOk result (list.new.items ≡ list.old.items ++ spec.skip m words) }
{
    if words == 0 {
        return Ok(());
    }
    list.push(Statement::Plain(addi(m, m, 2)))?;
    add_filler(list, words - 1)
}

/// What stands between the target and a jump that goes back.
fn add_back_body(list: &mut Vec<Statement>, k: u32, m: u8, words: u32) -> Result<(), NoMemory>
    requires { m < 32 }
    ensures { OnOk result (list.new.items ≡ list.old.items ++ spec.back_body k m words) }
{
    if words == 0 {
        list.push(Statement::To(jal(), Name::Done(k)))?;
        return Ok(());
    }
    list.extend_from_slice(&[
        Statement::Plain(addi(m, m, 2)),
        Statement::To(jal(), Name::Done(k)),
    ])?;
    add_filler(list, words - 1)
}

fn add_forward(
    list: &mut Vec<Statement>,
    words: u32,
    k: u32,
    m: u8,
    jump: Insn,
) -> Result<(), NoMemory>
    requires { m < 32 }
    ensures { OnOk result (
        list.new.items ≡ list.old.items ++ spec.forward_frame words k m jump []) }
{
    list.extend_from_slice(&[
        Statement::Plain(addi(m, 0, 1)),
        Statement::Label(Name::Case(k)),
        Statement::To(jump, Name::Target(k)),
    ])?;
    add_skip(list, m, words)?;
    list.push(Statement::Label(Name::Target(k)))?;
    Ok(())
}

fn add_backward(
    list: &mut Vec<Statement>,
    words: u32,
    k: u32,
    m: u8,
    jump: Insn,
) -> Result<(), NoMemory>
    requires { m < 32 }
    ensures { OnOk result (
        list.new.items ≡ list.old.items ++ spec.backward_frame words k m jump []) }
{
    list.extend_from_slice(&[
        Statement::Plain(addi(m, 0, 1)),
        Statement::To(jal(), Name::Case(k)),
        Statement::Label(Name::Target(k)),
    ])?;
    add_back_body(list, k, m, words)?;
    list.extend_from_slice(&[
        Statement::Label(Name::Case(k)),
        Statement::To(jump, Name::Target(k)),
        Statement::Label(Name::Done(k)),
    ])?;
    Ok(())
}

/// The frame of a jump, forwards or backwards.
pub(crate) fn add_frame(
    list: &mut Vec<Statement>,
    imm: i32,
    k: u32,
    m: u8,
    jump: Insn,
) -> Result<(), NoMemory>
    requires { m < 32 }
    ensures { OnOk result (list.new.items ≡ list.old.items ++ spec.frame imm k m jump []) }
{
    if imm < 0 {
        add_backward(list, between(imm), k, m, jump)
    } else {
        add_forward(list, between(imm), k, m, jump)
    }
}
