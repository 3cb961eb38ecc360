// Runs over a host and sinks in memory, of which the last line of the output is told.
use rvs_base::{Items, MemorySink, Sink, release};
use rvs_memory::MemoryHost;
use rvs_suite::{Status, run_suite};
use std::alloc::Global;
use std::test::Fail;

#[derive(Drop)]
struct Outcome {
    status: Status,
    out: MemorySink,
    err: MemorySink,
}

/// Runs words that have one space between them. It is the one call of `run_suite`, whose contract
/// is long to prove with.
fn status_of<O: Sink, E: Sink>(
    alloc: Global,
    words: &str,
    host: &mut MemoryHost,
    out: &mut O,
    err: &mut E,
) -> Result<Status, Fail> {
    let mut list = Vec::new(alloc);
    for word in words.split(' ') {
        list.push(String::from_str(alloc, word)?)?;
    }
    Ok(run_suite(alloc, list.as_slice(), host, out, err))
}

fn run_on(alloc: Global, words: &str, host: &mut MemoryHost) -> Result<Outcome, Fail> {
    let mut out = MemorySink::new(Items::new(alloc));
    let mut err = MemorySink::new(Items::new(alloc));
    let status = status_of(alloc, words, host, &mut out, &mut err)?;
    Ok(Outcome { status, out, err })
}

/// Adds the status, the last line of the output, and what the error stream got.
fn spell(report: &mut String, outcome: &Outcome) -> Result<(), Fail> {
    let out = str::from_utf8(outcome.out.bytes()).map_err(|_| "no text")?;
    let err = str::from_utf8(outcome.err.bytes()).map_err(|_| "no text")?;
    let last = out.lines().last().unwrap_or("");
    write!(report, "{last} [{:?}] {err:?}\n", outcome.status)?;
    Ok(())
}

/// Runs the words on a host, and tells the last line of what comes of it.
pub fn tell_last(
    alloc: Global,
    words: &str,
    host: &mut MemoryHost,
    report: &mut String,
) -> Result<(), Fail> {
    let outcome = run_on(alloc, words, host)?;
    let told = spell(report, &outcome);
    release(outcome);
    told
}
