// Words of instructions, as they are read, and their facts.
use crate::rows::{word, words};
use rvs_expr::{Facts, NumName, RegName};
use rvs_facts::{InsnFacts, number};
use rvs_insn::{Insn, decode, op_name};
use std::alloc::Global;
use std::test::Fail;

fn spell_insn(insn: &Insn, report: &mut String) -> Result<(), Fail> {
    let name = op_name(insn.op);
    write!(
        report,
        "{name} {:?} {:?} {:?} {:?}\n",
        insn.rd, insn.rs1, insn.rs2, insn.imm
    )?;
    Ok(())
}

/// Adds the mnemonic of a word, its registers and its immediate.
pub fn tell_decoded(row: &str, report: &mut String) -> Result<(), Fail> {
    match decode(word(row)?) {
        Some(insn) => spell_insn(&insn, report),
        None => Ok(report.push_str("none\n")?),
    }
}

/// Adds the number of the mnemonic, the registers, and the values of the facts.
fn spell_facts(facts: &InsnFacts<'_>, report: &mut String) -> Result<(), Fail> {
    let insn: &Insn = facts.insn;
    write!(report, "mnemonic {}", number(insn.op))?;
    for name in [RegName::Rd, RegName::Rs1, RegName::Rs2, RegName::Var0] {
        write!(report, " {:?}", facts.reg(name))?;
    }
    for name in [
        NumName::Rs1Val,
        NumName::Rs2Val,
        NumName::ImmVal,
        NumName::EaAlign,
    ] {
        write!(report, " {:?}", facts.num(name))?;
    }
    report.push_str("\n")?;
    Ok(())
}

/// Adds the facts of an instruction's word and the words of its source registers.
pub fn tell_facts(alloc: Global, row: &str, report: &mut String) -> Result<(), Fail> {
    let words = words(alloc, row)?;
    let [word, first, second] = words.as_slice() else {
        return Err(Fail::new("no three words"));
    };
    let insn = decode(*word).ok_or("no instruction")?;
    let facts = InsnFacts {
        insn: &insn,
        first: *first,
        second: *second,
    };
    spell_facts(&facts, report)
}
