// The command `reference`.
ghost use Rattle.std.specs.Prelude.{◌≡◌, ℕ, IfOk};
ghost use Rattle.rvs_base.specs.Host.{HostState};
ghost use Rattle.rvs_base.specs.Sink.{SinkState};
ghost use Rattle.rvs_plan.specs.World.{world};
ghost use Rattle.rvs_plan.specs.Plan.{writes};
ghost use Rattle.rvs_plan.specs.Meets.{Meets};
ghost use Rattle.rvs_sig.specs.Words.{text_of_words};
ghost use Rattle.rvs_reference.specs.TestTexts.{ran_line};
ghost use Rattle.rvs_log.specs.Logs.{log_of};
ghost use Rattle.rvs_reference.specs.Reference.{trial, writes_log, announces_run, records};
ghost use Rattle.rvs_reference.specs.Reference.{reference};

use crate::test_run::{Run, run_bytes};
use rvs_base::{Bytes, Host, Items, NoMemory, Sink, Text};
use rvs_inputs::{print_text, read_isa};
use rvs_insn::IsaSpec;
use rvs_log::log_line;
use rvs_machine::Executed;
use rvs_plan::{Finish, Stop, read_input, write_output};
use rvs_sig::print_words;
use rvs_words::{ReferenceArguments, owned};
use std::alloc::Global;

/// The greatest length of a test file in bytes: 64 MiB.
pub const TEST_LIMIT: u64 = 67_108_864;

/// Runs a test on the reference machine, on the core of an ISA file, and writes its signature, and
/// its log where one is asked for. The test may have `steps` instructions, or where that is `None`
/// as many as the header of its text says, or else 1,000,000. Nothing is written before the run has
/// halted.
///
/// # Errors
///
/// [`Stop`]: a file isn't accepted, an instruction traps, the run doesn't halt, a file can't be
/// written, or the output failed.
pub fn run_reference<H: Host, O: Sink>(
    alloc: Global,
    asked: &ReferenceArguments,
    host: &mut H,
    out: &mut O,
) -> Result<Finish, Stop>
    ensures { Meets (reference asked.now)
        (world (H.state host.old) (O.state out.old)) (world (H.state host.new) (O.state out.new))
        result }
{
    let said = read_isa(alloc, host, &asked.isa)?;
    let run = run_test(alloc, asked.steps, said.spec, &asked.test, host)?;
    record_run(alloc, asked, &run, host, out)
}

/// Reads a test file, and runs it on a core until it halts.
fn run_test<H: Host>(
    alloc: Global,
    steps: Option<u64>,
    spec: IsaSpec,
    test: &Text,
    host: &mut H,
) -> Result<Run, Stop>
    ensures { (out : SinkState) → Meets (trial steps spec test.now) (world (H.state host.old) out)
        (world (H.state host.new) out) result }
{
    let bytes = read_input(alloc, host, test.as_str(), TEST_LIMIT)?;
    run_bytes(alloc, steps, spec, test.as_str(), bytes.as_slice())
}

/// Writes what a run has left: its signature, and then its log, where one is asked for. Puts the
/// line that counts both.
fn record_run<H: Host, O: Sink>(
    alloc: Global,
    asked: &ReferenceArguments,
    run: &Run,
    host: &mut H,
    out: &mut O,
) -> Result<Finish, Stop>
    ensures { Meets (records asked.now.signature asked.now.log run.now)
        (world (H.state host.old) (O.state out.old)) (world (H.state host.new) (O.state out.new))
        result }
{
    write_signature(alloc, &asked.signature, run.words.as_slice(), host)?;
    write_log(alloc, &asked.log, run.trace.as_slice(), host)?;
    announce_run(alloc, run, out)
}

fn write_signature<H: Host>(
    alloc: Global,
    signature: &Text,
    words: &[u32],
    host: &mut H,
) -> Result<(), Stop>
    ensures { (out : SinkState) → Meets (writes signature.now (text_of_words words.now))
        (world (H.state host.old) out) (world (H.state host.new) out) result }
{
    let text = print_words(alloc, words)?;
    let name = owned(alloc, signature.as_str())?;
    write_output(host, name, text.as_str().as_bytes())
}

fn write_log<H: Host>(
    alloc: Global,
    log: &Option<Text>,
    trace: &[Executed],
    host: &mut H,
) -> Result<(), Stop>
    ensures { (out : SinkState) → Meets (writes_log log.now trace.now)
        (world (H.state host.old) out) (world (H.state host.new) out) result }
{
    match log {
        None => Ok(()),
        Some(log) => write_lines(alloc, log, trace, host),
    }
}

fn write_lines<H: Host>(
    alloc: Global,
    log: &Text,
    trace: &[Executed],
    host: &mut H,
) -> Result<(), Stop>
    ensures { (out : SinkState) → Meets (writes log.now (log_of trace.now))
        (world (H.state host.old) out) (world (H.state host.new) out) result }
{
    let lines = log_lines(alloc, trace)?;
    let name = owned(alloc, log.as_str())?;
    write_output(host, name, lines.as_slice())
}

/// The log of these instructions, in one piece of memory.
fn log_lines(alloc: Global, trace: &[Executed]) -> Result<Bytes, NoMemory>
    ensures { IfOk result (λ lines. lines ≡ log_of trace.now) }
{
    let mut lines = Vec::new(alloc);
    for executed in trace {
        lines.extend_from_slice(log_line(executed).as_str().as_bytes())?;
        lines.push(b'\n')?;
    }
    Ok(Items::from(lines))
}

fn announce_run<O: Sink>(alloc: Global, run: &Run, out: &mut O) -> Result<Finish, Stop>
    ensures { (host : HostState) → Meets (announces_run run.now) (world host (O.state out.old))
        (world host (O.state out.new)) result }
{
    let line = ran_line(
        alloc,
        run.trace.as_slice().len(),
        run.words.as_slice().len(),
    )?;
    print_text(&line, out)
}

#[tactic(auto, unfolding(crate::specs::TestTexts::ran_line))]
fn ran_line(alloc: Global, instructions: usize, words: usize) -> Result<Text, NoMemory>
    ensures { IfOk result (λ line. line ≡ ran_line instructions words) }
{
    Ok(Text::from(format!(in alloc; "{instructions} instructions, {words} words\n")?))
}
