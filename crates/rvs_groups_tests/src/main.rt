//! What comes of the coverage groups and tests in `data/groups`, which is the folder `groups` of
//! the repository: each row of `data/runs` is the words of a run on a host that has these files,
//! and a specification for each core, and is told by its status and the last line of its output. A
//! row is read when the program runs, so that it costs the proof nothing.
#![tactic(auto)]

mod runs;

use runs::tell_last;
use rvs_base::{Bytes, Items, Text, release};
use rvs_memory::{Files, MemoryHost};
use std::alloc::Global;
use std::fs;
use std::test::Fail;

const NAMES: [&str; 15] = [
    "i.cgf",
    "m.cgf",
    "a.cgf",
    "rows.cgf",
    "tests.yaml",
    "registers.S",
    "registers-x31.S",
    "loads.S",
    "stores.S",
    "misaligned.S",
    "jumps.S",
    "far.S",
    "multiply.S",
    "atomic.S",
    "reserved.S",
];

const CORES: [&str; 6] = ["RV32I", "RV32IM", "RV32IMA", "RV32E", "RV32EM", "RV32EMA"];

fn add(alloc: Global, files: &mut Files, name: &str, text: &str) -> Result<(), Fail> {
    let bytes: Bytes = Items::from(text.as_bytes().to_vec(alloc)?);
    files.push((Text::from(String::from_str(alloc, name)?), bytes))?;
    Ok(())
}

/// Adds the specification of a core, with or without misaligned data.
fn add_core(alloc: Global, files: &mut Files, isa: &str, misaligned: &str) -> Result<(), Fail> {
    let name = format!(in alloc; "{isa}-{misaligned}.yaml")?;
    let support = format!(in alloc; "  hw_data_misaligned_support: {misaligned}\n")?;
    let text = format!(in alloc; "hart_ids: [0]\nhart0:\n  ISA: {isa}\n{support}")?;
    add(alloc, files, name.as_str(), text.as_str())
}

fn add_cores(alloc: Global, files: &mut Files) -> Result<(), Fail> {
    for isa in CORES {
        add_core(alloc, files, isa, "false")?;
        add_core(alloc, files, isa, "true")?;
    }
    Ok(())
}

fn files_of(rt: &HostRuntime) -> Result<Files, Fail> {
    let alloc = rt.alloc();
    let mut files: Files = Items::new(alloc);
    for name in NAMES {
        let place = format!(in alloc; "groups/{name}")?;
        let text = fs::read_to_string(rt, place.as_str())?;
        add(alloc, &mut files, place.as_str(), text.as_str())?;
    }
    add_cores(alloc, &mut files)?;
    Ok(files)
}

fn play(alloc: Global, rows: &str, host: &mut MemoryHost, report: &mut String) -> Result<(), Fail> {
    for words in rows.lines() {
        write!(report, "> {words}\n")?;
        tell_last(alloc, words, host, report)?;
    }
    Ok(())
}

/// What the rows tell of a host with these files.
fn told(alloc: Global, files: Files, rows: &str, report: &mut String) -> Result<(), Fail> {
    let mut host = MemoryHost::new(files, Items::new(alloc), Items::new(alloc));
    let told = play(alloc, rows, &mut host, report);
    release(host);
    told
}

fn main(rt: HostRuntime) -> Result<(), Fail> {
    let alloc = rt.alloc();
    let rows = fs::read_to_string(&rt, "runs")?;
    let files = files_of(&rt)?;
    let mut report = String::new(alloc);
    told(alloc, files, rows.as_str(), &mut report)?;
    print!(rt; "{report}")?;
    Ok(())
}
