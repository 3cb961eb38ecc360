// Runs over a host and sinks in memory. No clause says that a run has the memory that it wants, nor
// how its lines are spelt.
use crate::stage::{host_of, list};
use rvs_base::{MemorySink, Sink, release};
use rvs_memory::MemoryHost;
use rvs_suite::{Status, run_suite};
use std::alloc::Global;
use std::test::Fail;

/// Which call of the host, of the output or of the error stream fails.
#[derive(Clone, Copy)]
pub struct Faults {
    pub host: Option<u64>,
    pub out: Option<u64>,
    pub err: Option<u64>,
}

pub const NO_FAULTS: Faults = Faults {
    host: None,
    out: None,
    err: None,
};

fn only(place: &str, wanted: &str, call: u64) -> Option<u64> {
    if place == wanted { Some(call) } else { None }
}

/// The fault of a call of `host`, `out` or `err`.
pub fn fault(place: &str, call: u64) -> Faults {
    Faults {
        host: only(place, "host", call),
        out: only(place, "out", call),
        err: only(place, "err", call),
    }
}

#[derive(Drop)]
pub struct Outcome {
    status: Status,
    out: MemorySink,
    err: MemorySink,
}

/// Runs words that have one space between them. It is the one call of `run_suite`, whose contract
/// is long to prove with.
pub fn status_of<O: Sink, E: Sink>(
    alloc: Global,
    words: &str,
    host: &mut MemoryHost,
    out: &mut O,
    err: &mut E,
) -> Result<Status, Fail> {
    let mut list = Vec::new(alloc);
    for word in words.split(' ') {
        list.push(String::from_str(alloc, word)?)?;
    }
    Ok(run_suite(alloc, list.as_slice(), host, out, err))
}

/// Runs the words on a host that has its own faults.
fn run_on(
    alloc: Global,
    words: &str,
    host: &mut MemoryHost,
    faults: Faults,
) -> Result<Outcome, Fail> {
    let mut out = MemorySink::new(list(alloc, faults.out)?);
    let mut err = MemorySink::new(list(alloc, faults.err)?);
    let status = status_of(alloc, words, host, &mut out, &mut err)?;
    Ok(Outcome { status, out, err })
}

/// Adds the output, the status and what the error stream got.
fn spell(report: &mut String, outcome: &Outcome) -> Result<(), Fail> {
    let out = str::from_utf8(outcome.out.bytes()).map_err(|_| "no text")?;
    let err = str::from_utf8(outcome.err.bytes()).map_err(|_| "no text")?;
    write!(report, "{out}[{:?}] {err:?}\n", outcome.status)?;
    Ok(())
}

/// Runs the words on a host, and tells what comes of it.
pub fn tell_on(
    alloc: Global,
    words: &str,
    host: &mut MemoryHost,
    faults: Faults,
    report: &mut String,
) -> Result<(), Fail> {
    let outcome = run_on(alloc, words, host, faults)?;
    let told = spell(report, &outcome);
    release(outcome);
    told
}

/// The run of a scene with one fault, and the host that it leaves.
pub fn faulty(
    alloc: Global,
    scene: &str,
    words: &str,
    faults: Faults,
    report: &mut String,
) -> Result<MemoryHost, Fail> {
    let mut host = host_of(alloc, scene, faults.host)?;
    match tell_on(alloc, words, &mut host, faults, report) {
        Ok(()) => Ok(host),
        Err(fail) => {
            release(host);
            Err(fail)
        },
    }
}
