// Entries of `config` on a core with the ISA text `RV32IM` that has no misaligned data.
use rvs_condition::condition;
use rvs_insn::{IsaSpec, USUAL_MEMORY};
use std::alloc::Global;
use std::test::Fail;

const CORE: IsaSpec = IsaSpec {
    e: false,
    m: true,
    a: false,
    zicsr: false,
    zifencei: false,
    misaligned: false,
    address_bits: 32,
    memory: USUAL_MEMORY,
};

/// Adds whether an entry holds, or that it is no condition.
pub fn tell_entry(alloc: Global, entry: &str, report: &mut String) -> Result<(), Fail> {
    let told = match condition(alloc, &CORE, entry) {
        Ok(Some(true)) => "yes\n",
        Ok(Some(false)) => "no\n",
        Ok(None) => "none\n",
        Err(_) => return Err(Fail::new("no memory")),
    };
    report.push_str(told)?;
    Ok(())
}
