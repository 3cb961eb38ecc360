// The command `run`.
ghost use Rattle.std.specs.Prelude.{◌≡◌, ◌≤◌, ◌<◌, ◌+◌, ◌^◌, All, IfOk, length};
ghost use Rattle.rvs_base.specs.Host.{HostState};
ghost use Rattle.rvs_base.specs.Sink.{SinkState};
ghost use Rattle.rvs_plan.specs.World.{world, IsAnswer};
ghost use Rattle.rvs_plan.specs.Meets.{MeetsWith, Meets};
ghost use Rattle.rvs_device.specs.DeviceView.{told};
ghost use Rattle.rvs_cgf.specs.GroupView.{label_view};
ghost use Rattle.rvs_inputs.specs.GroupsView.{inputs_view};
ghost use Rattle.rvs_generate.specs.Testable.{IsTestableIfSelected};
ghost use Rattle.rvs_generate.specs.Tests.{IsReady};
ghost use Rattle.rvs_run.specs.RunTests.{tally_line, with_one, judges_all, verdict_of_all};
ghost use Rattle.rvs_run.specs.RunTests.{tallies, judges_tests, judges_gathered, run, runs_over};
ghost use Rattle.rvs_run.specs.RunView.{bench_view};

use crate::judging::{Bench, judge_one};
use rvs_base::{Host, NoMemory, Sink, Text, beside, release};
use rvs_device::Device;
use rvs_generate::{Gathered, Source, gather_tests, read_labels};
use rvs_inputs::{Inputs, read_device_file, release_inputs};
use rvs_insn::IsaSpec;
use rvs_plan::{Finish, Stop, print};
use rvs_words::{RunArguments, owned};
use std::alloc::Global;

/// Reads coverage group files for the core of an ISA file, and a device file; writes a test for
/// each label that has a solved point, runs it on the reference machine and on the device, and puts
/// the verdict on the words that the device leaves.
///
/// # Errors
///
/// [`Stop`]; nothing is written and nothing is put before all files are accepted.
pub fn run_tests<H: Host, O: Sink>(
    alloc: Global,
    asked: &RunArguments,
    host: &mut H,
    out: &mut O,
) -> Result<Finish, Stop>
    ensures { MeetsWith IsAnswer (run asked.now)
        (world (H.state host.old) (O.state out.old))
        (world (H.state host.new) (O.state out.new)) result }
{
    let inputs = read_labels(
        alloc,
        host,
        &asked.isa,
        asked.families,
        &asked.groups,
        &asked.part,
    )?;
    let finish = run_over(alloc, asked, host, out, &inputs);
    release_inputs(inputs);
    finish
}

/// The same, where the core and its groups are read.
fn run_over<H: Host, O: Sink>(
    alloc: Global,
    asked: &RunArguments,
    host: &mut H,
    out: &mut O,
    inputs: &Inputs,
) -> Result<Finish, Stop>
    requires { All (λ l. IsTestableIfSelected inputs.now.isa (label_view l)) inputs.now.groups }
    ensures { MeetsWith IsAnswer (runs_over asked.now (inputs_view inputs.now))
        (world (H.state host.old) (O.state out.old))
        (world (H.state host.new) (O.state out.new)) result }
{
    let device = read_device_file(alloc, host, &asked.device)?;
    let (gathered, device) = beside(gather_tests(alloc, inputs), device)?;
    let bench = bench_of(alloc, &asked.program, &asked.work, device, inputs.isa);
    let (bench, gathered) = beside(bench, gathered)?;
    let ended = judge_gathered(alloc, host, out, &bench, &gathered);
    release(gathered);
    release(bench);
    ended
}

/// Puts what is said of tests, and judges them.
fn judge_gathered<H: Host, O: Sink>(
    alloc: Global,
    host: &mut H,
    out: &mut O,
    bench: &Bench,
    gathered: &Gathered,
) -> Result<Finish, Stop>
    requires { All (IsReady bench.now.isa) gathered.now.tests }
    ensures { MeetsWith IsAnswer
        (judges_gathered (bench_view bench.now) gathered.now.text gathered.now.tests)
        (world (H.state host.old) (O.state out.old))
        (world (H.state host.new) (O.state out.new)) result }
{
    print(out, gathered.text.as_str().as_bytes())?;
    judge_tests(alloc, host, out, bench, gathered.tests.as_slice())
}

/// What tests are judged with, for this name of the program and this folder.
///
/// # Errors
///
/// [`NoMemory`].
pub fn bench_of(
    alloc: Global,
    program: &Text,
    work: &Text,
    device: Device,
    isa: IsaSpec,
) -> Result<Bench, NoMemory>
    ensures { IfOk result (λ bench. bench_view bench ≡ record {
      program = program.now;
      device = told device;
      work = work.now;
      isa = isa;
    }) }
{
    Ok(Bench {
        program: owned(alloc, program.as_str())?,
        device,
        work: owned(alloc, work.as_str())?,
        isa,
    })
}

/// Judges all tests, and puts the totals.
///
/// # Errors
///
/// [`Stop`]; a test that isn't there, isn't accepted, traps or doesn't halt ends the work behind
/// the verdicts before it.
pub fn judge_tests<H: Host, O: Sink>(
    alloc: Global,
    host: &mut H,
    out: &mut O,
    bench: &Bench,
    sources: &[Source],
) -> Result<Finish, Stop>
    requires { All (IsReady bench.now.isa) sources.now }
    ensures { MeetsWith IsAnswer (judges_tests (bench_view bench.now) sources.now)
        (world (H.state host.old) (O.state out.old))
        (world (H.state host.new) (O.state out.new)) result }
{
    let passed = judge_all(alloc, host, out, bench, sources)?;
    print_totals(alloc, sources.len(), passed, out)
}

/// How many of the tests pass.
fn judge_all<H: Host, O: Sink>(
    alloc: Global,
    host: &mut H,
    out: &mut O,
    bench: &Bench,
    sources: &[Source],
) -> Result<usize, Stop>
    requires { All (IsReady bench.now.isa) sources.now }
    ensures met { MeetsWith IsAnswer (judges_all (bench_view bench.now) 0 sources.now)
        (world (H.state host.old) (O.state out.old))
        (world (H.state host.new) (O.state out.new)) result }
    ensures some { IfOk result (λ passed. passed ≤ length sources.now) }
{
    let mut passed = 0;
    for source in sources {
        let pass = judge_one(alloc, host, out, bench, source)?;
        passed = with_one(passed, pass);
    }
    Ok(passed)
}

/// How many tests pass, with one that does or doesn't.
fn with_one(passed: usize, pass: bool) -> usize
    requires { passed < 2 ^ 63 }
    ensures value { result ≡ with_one passed pass }
    ensures some { result ≤ passed + 1 }
{
    if pass { passed + 1 } else { passed }
}

/// Puts the totals.
fn print_totals<O: Sink>(
    alloc: Global,
    tests: usize,
    passed: usize,
    out: &mut O,
) -> Result<Finish, Stop>
    requires { passed ≤ tests }
    ensures { (host : HostState) → Meets (tallies tests passed)
        (world host (O.state out.old)) (world host (O.state out.new)) result }
{
    let line = tally_line(alloc, tests, passed)?;
    print(out, line.as_str().as_bytes())?;
    Ok(finish_of(tests, passed))
}

#[tactic(auto, unfolding(crate::specs::RunTests::tally_line))]
fn tally_line(alloc: Global, tests: usize, passed: usize) -> Result<Text, NoMemory>
    requires { passed ≤ tests }
    ensures { IfOk result (λ line. line ≡ tally_line tests passed) }
{
    let failed = tests - passed;
    Ok(Text::from(format!(in alloc; "total {tests} tests, {passed} pass, {failed} fail\n")?))
}

fn finish_of(tests: usize, passed: usize) -> Finish
    ensures { result ≡ verdict_of_all tests passed }
{
    if passed == tests {
        Finish::Done
    } else {
        Finish::NotPassed
    }
}
