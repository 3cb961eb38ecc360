// The judging of one test.
ghost use Rattle.std.specs.Prelude.{◌≡◌, Ok, IfOk};
ghost use Rattle.rvs_base.specs.Host.{HostState};
ghost use Rattle.rvs_base.specs.Sink.{SinkState};
ghost use Rattle.rvs_plan.specs.World.{world, IsAnswer};
ghost use Rattle.rvs_plan.specs.Plan.{writes};
ghost use Rattle.rvs_plan.specs.Meets.{MeetsWith, Meets};
ghost use Rattle.rvs_sig.specs.Words.{text_of_words};
ghost use Rattle.rvs_elf.specs.Written.{elf_of};
ghost use Rattle.rvs_device.specs.Command.{wants_elf};
ghost use Rattle.rvs_device.specs.Judging.{Task};
ghost use Rattle.rvs_device.specs.Plans.{stopped};
ghost use Rattle.rvs_reference.specs.TestRun.{Accepts};
ghost use Rattle.rvs_generate.specs.Tests.{IsReady, IsRunnable};
ghost use Rattle.rvs_run.specs.RunTests.{if_asked, made_for, made_found, makes, writes_held};
ghost use Rattle.rvs_run.specs.RunTests.{writes_executable, judges_by, judges_words, judges_made};
ghost use Rattle.rvs_run.specs.RunTests.{passes, announces, announces_made, judges_one};
ghost use Rattle.rvs_run.specs.RunView.{bench_view, made_with};
ghost use Rattle.rvs_base.specs.Answers.{seen};
ghost use Rattle.rvs_generate.specs.declared.sources.Source.TheVariants.{Read};

use rvs_base::{Bytes, Host, Items, NoMemory, Sink, Text, beside, release};
use rvs_device::{Device, Filling, JudgeFault, TestVerdict, judge, verdict_line};
use rvs_elf::write_elf;
use rvs_generate::{Given, Source, Test, TestFiles, name_of};
use rvs_insn::IsaSpec;
use rvs_machine::Image;
use rvs_plan::{Stop, print, read_input, write_output};
use rvs_reference::{TEST_LIMIT, image_of, limit_of, run_image};
use rvs_sig::print_words;
use rvs_words::owned;
use std::alloc::Global;

/// What tests are judged with.
#[derive(Drop)]
pub struct Bench {
    /// The program's own name.
    pub program: Text,
    pub device: Device,
    /// The folder of the tests and signatures.
    pub work: Text,
    pub isa: IsaSpec,
}

/// What comes of a test before it is judged.
#[derive(Drop)]
pub struct Made {
    pub files: TestFiles,
    /// The executable, where the device asks for it.
    pub executable: Option<Bytes>,
    /// The words that the test leaves on the reference machine.
    pub words: Items<u32>,
}

/// The same without the files.
#[derive(Drop)]
struct Found {
    executable: Option<Bytes>,
    words: Items<u32>,
}

/// Judges a test, puts the verdict, and says whether it passes.
pub fn judge_one<H: Host, O: Sink>(
    alloc: Global,
    host: &mut H,
    out: &mut O,
    bench: &Bench,
    source: &Source,
) -> Result<bool, Stop>
    requires { IsReady bench.now.isa source.now }
    ensures { MeetsWith IsAnswer (judges_one (bench_view bench.now) source.now)
        (world (H.state host.old) (O.state out.old))
        (world (H.state host.new) (O.state out.new)) result }
{
    let made = make_test(alloc, host, bench, source)?;
    let ended = announce_made(alloc, host, out, bench, source, &made);
    release(made);
    ended
}

/// Judges a test of which this came, puts the verdict, and says whether it passes.
fn announce_made<H: Host, O: Sink>(
    alloc: Global,
    host: &mut H,
    out: &mut O,
    bench: &Bench,
    source: &Source,
    made: &Made,
) -> Result<bool, Stop>
    ensures { MeetsWith IsAnswer (announces_made (bench_view bench.now) source.now made.now)
        (world (H.state host.old) (O.state out.old))
        (world (H.state host.new) (O.state out.new)) result }
{
    let verdict = judge_made(alloc, host, bench, source, made)?;
    print_verdict(alloc, name_of(source), &verdict, out)
}

/// What comes of a test before it is judged.
fn make_test<H: Host>(
    alloc: Global,
    host: &mut H,
    bench: &Bench,
    source: &Source,
) -> Result<Made, Stop>
    requires { IsReady bench.now.isa source.now }
    ensures { (out : SinkState) → Meets (makes (bench_view bench.now) source.now)
        (world (H.state host.old) out) (world (H.state host.new) out) result }
{
    match source {
        Source::Held(test) => make_held(alloc, bench, test),
        Source::Read(given) => make_given(alloc, host, bench, given),
    }
}

/// The same of one that was made. It isn't refused.
fn make_held(alloc: Global, bench: &Bench, test: &Test) -> Result<Made, Stop>
    requires { IsRunnable bench.now.isa test.now }
    ensures { Accepts (Ok (made_for (bench_view bench.now) test.now)) result }
{
    let files = TestFiles::new(alloc, &bench.work, &test.name)?;
    made_found(alloc, bench, files, test.text.as_str().as_bytes())
}

/// Reads a test, and runs it on the reference machine.
fn make_given<H: Host>(
    alloc: Global,
    host: &mut H,
    bench: &Bench,
    given: &Given,
) -> Result<Made, Stop>
    ensures { (out : SinkState) → Meets (makes (bench_view bench.now) (Read given.now))
        (world (H.state host.old) out) (world (H.state host.new) out) result }
{
    let bytes = read_input(alloc, host, given.name.as_str(), TEST_LIMIT)?;
    let files = TestFiles::of_given(alloc, &bench.work, given)?;
    made_found(alloc, bench, files, bytes.as_slice())
}

/// What comes of a test with these files and bytes before it is judged.
fn made_found(alloc: Global, bench: &Bench, files: TestFiles, bytes: &[u8]) -> Result<Made, Stop>
    ensures { Accepts (made_found (bench_view bench.now) files bytes.now) result }
{
    let (found, files) = beside(found_of(alloc, bench, &files, bytes), files)?;
    let Found { executable, words } = found;
    Ok(Made {
        files,
        executable,
        words,
    })
}

/// What comes of a test with these files and bytes, beside the files.
fn found_of(alloc: Global, bench: &Bench, files: &TestFiles, bytes: &[u8]) -> Result<Found, Stop>
    ensures { Accepts (made_found (bench_view bench.now) files.now bytes.now)
        (seen (made_with files.now) result) }
{
    let image = image_of(alloc, bench.isa, files.test.as_str(), bytes)?;
    let (executable, image) = beside(executable_of(alloc, &bench.device, &image), image)?;
    let limit = limit_of(None, files.test.as_str(), bytes);
    let name = files.test.as_str();
    let (run, executable) = beside(run_image(alloc, name, limit, bench.isa, image), executable)?;
    Ok(Found {
        executable,
        words: run.words,
    })
}

/// The executable of an image, where the device asks for it.
fn executable_of(alloc: Global, device: &Device, image: &Image) -> Result<Option<Bytes>, NoMemory>
    ensures { IfOk result
        (λ made. made ≡ if_asked (wants_elf device.now.command) (elf_of image.now)) }
{
    if device.wants_elf {
        Ok(Some(write_elf(alloc, image)?))
    } else {
        Ok(None)
    }
}

/// Writes the text of a test that was made, its executable where the device asks for it, and the
/// words that it leaves on the reference machine, and judges the device by them.
fn judge_made<H: Host>(
    alloc: Global,
    host: &mut H,
    bench: &Bench,
    source: &Source,
    made: &Made,
) -> Result<TestVerdict, Stop>
    ensures { (out : SinkState) → MeetsWith IsAnswer
        (judges_made (bench_view bench.now) source.now made.now)
        (world (H.state host.old) out) (world (H.state host.new) out) result }
{
    write_held(alloc, host, &made.files.test, source)?;
    write_executable(alloc, host, &made.files.executable, &made.executable)?;
    judge_words(alloc, host, bench, &made.files, made.words.as_slice())
}

fn write_held<H: Host>(
    alloc: Global,
    host: &mut H,
    name: &Text,
    source: &Source,
) -> Result<(), Stop>
    ensures { (out : SinkState) → Meets (writes_held name.now source.now)
        (world (H.state host.old) out) (world (H.state host.new) out) result }
{
    match source {
        Source::Held(test) => write_bytes(alloc, host, name, test.text.as_str().as_bytes()),
        Source::Read(_) => Ok(()),
    }
}

/// Writes an executable, where there is one.
fn write_executable<H: Host>(
    alloc: Global,
    host: &mut H,
    name: &Text,
    executable: &Option<Bytes>,
) -> Result<(), Stop>
    ensures { (out : SinkState) → Meets (writes_executable name.now executable.now)
        (world (H.state host.old) out) (world (H.state host.new) out) result }
{
    match executable {
        None => Ok(()),
        Some(executable) => write_bytes(alloc, host, name, executable.as_slice()),
    }
}

fn write_bytes<H: Host>(alloc: Global, host: &mut H, name: &Text, bytes: &[u8]) -> Result<(), Stop>
    ensures { (out : SinkState) → Meets (writes name.now bytes.now)
        (world (H.state host.old) out) (world (H.state host.new) out) result }
{
    let name = owned(alloc, name.as_str())?;
    write_output(host, name, bytes)
}

fn write_words<H: Host>(
    alloc: Global,
    host: &mut H,
    files: &TestFiles,
    words: &[u32],
) -> Result<(), Stop>
    ensures { (out : SinkState) → Meets
        (writes files.now.reference (text_of_words words.now))
        (world (H.state host.old) out) (world (H.state host.new) out) result }
{
    let name = owned(alloc, files.reference.as_str())?;
    let text = print_words(alloc, words)?;
    write_output(host, name, text.as_str().as_bytes())
}

/// Writes the reference's words of a test that is written, and judges the device by them.
fn judge_words<H: Host>(
    alloc: Global,
    host: &mut H,
    bench: &Bench,
    files: &TestFiles,
    words: &[u32],
) -> Result<TestVerdict, Stop>
    ensures { (out : SinkState) → MeetsWith IsAnswer
        (judges_words (bench_view bench.now) files.now words.now)
        (world (H.state host.old) out) (world (H.state host.new) out) result }
{
    write_words(alloc, host, files, words)?;
    judge_device(alloc, host, bench, files, words)
}

/// Where the text of the core begins.
fn text_base(bench: &Bench) -> u32
    ensures { result ≡ bench.now.isa.memory.text_base }
{
    bench.isa.memory.text_base
}

/// Where its data begin.
fn data_base(bench: &Bench) -> u32
    ensures { result ≡ bench.now.isa.memory.data_base }
{
    bench.isa.memory.data_base
}

/// Runs the device on a test that is written, and judges what it leaves by the reference's words.
fn judge_device<H: Host>(
    alloc: Global,
    host: &mut H,
    bench: &Bench,
    files: &TestFiles,
    words: &[u32],
) -> Result<TestVerdict, Stop>
    ensures { (out : SinkState) → MeetsWith IsAnswer
        (judges_by (bench_view bench.now) files.now words.now)
        (world (H.state host.old) out) (world (H.state host.new) out) result }
{
    let test = owned(alloc, files.test.as_str())?;
    let signature = owned(alloc, files.device.as_str())?;
    let filling = Filling {
        program: bench.program.as_str(),
        test: test.as_str(),
        elf: files.executable.as_str(),
        signature: signature.as_str(),
        text_base: text_base(bench),
        data_base: data_base(bench),
    };
    let judged = judge(alloc, host, &bench.device, filling, words);
    with_stop(test, signature, judged)
}

/// The verdict, or why the command stops.
fn with_stop(
    test: Text,
    signature: Text,
    judged: Result<TestVerdict, JudgeFault>,
) -> Result<TestVerdict, Stop>
    ensures { (t : Task) → t.test ≡ test → t.signature ≡ signature → result ≡ stopped t judged }
{
    match judged {
        Ok(verdict) => Ok(verdict),
        Err(JudgeFault::Write) => Err(Stop::CannotWrite(signature)),
        Err(JudgeFault::Run) => Err(Stop::CannotRun(test)),
        Err(JudgeFault::Read) => Err(Stop::CannotRead(signature)),
        Err(JudgeFault::NoMemory) => Err(Stop::NoMemory),
    }
}

fn passes(verdict: &TestVerdict) -> bool
    ensures { result ≡ passes verdict.now }
{
    match verdict {
        TestVerdict::Pass { .. } => true,
        _ => false,
    }
}

/// Puts a verdict, and says whether it is a pass.
fn print_verdict<O: Sink>(
    alloc: Global,
    name: &str,
    verdict: &TestVerdict,
    out: &mut O,
) -> Result<bool, Stop>
    ensures { (host : HostState) → Meets (announces name.now verdict.now)
        (world host (O.state out.old)) (world host (O.state out.new)) result }
{
    let line = verdict_line(alloc, name, verdict)?;
    print(out, line.as_str().as_bytes())?;
    Ok(passes(verdict))
}
