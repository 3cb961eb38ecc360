// What the files that a run left of a test say.
ghost use Rattle.std.specs.Prelude.{◌≡◌, ◌≤◌, Some, IfOk, length};
ghost use Rattle.rvs_base.specs.Sink.{SinkState};
ghost use Rattle.rvs_plan.specs.World.{world, IsAnswer};
ghost use Rattle.rvs_plan.specs.Plan.{◌>>=◌ as followed};
ghost use Rattle.rvs_plan.specs.Meets.{MeetsWith};
ghost use Rattle.rvs_sig.specs.Verdicts.{verdict_of};
ghost use Rattle.rvs_reference.specs.TestRun.{NamesText};
ghost use Rattle.rvs_generate.specs.Tests.{IsRunnable};
ghost use Rattle.rvs_report.specs.Findings.{likeness, asks_like, if_like, found_open, compared};
ghost use Rattle.rvs_report.specs.Findings.{judged_left, finds_signature, finds_words, finds_test};

use rvs_base::{Fault, FileRefusal, Host, Items, NoMemory, Text, read_file, release};
use rvs_device::SIGNATURE_LIMIT;
use rvs_generate::{Test, TestFiles, reference_of};
use rvs_insn::IsaSpec;
use rvs_page::State;
use rvs_plan::Stop;
use rvs_showing::Found;
use rvs_sig::{SigRefusal, Verdict, compare, print_words, read_words};
use rvs_words::owned;
use std::alloc::Global;

/// A file, beside what it should hold.
#[derive(Drop, Clone, Copy)]
pub enum Likeness {
    /// It isn't there.
    Absent,
    /// It holds something else.
    Other,
    /// It holds this.
    Same,
}

/// A state in which there are no words to compare.
pub fn found_open(alloc: Global, state: State) -> Found
    ensures { result ≡ found_open state }
{
    Found {
        state,
        device: Items::new(alloc),
        reference: Items::new(alloc),
    }
}

/// Reads a file that should hold this, up to one byte more.
fn read_like<H: Host>(
    alloc: Global,
    host: &mut H,
    name: &Text,
    expected: &[u8],
) -> Result<Likeness, Stop>
    ensures { (out : SinkState) → MeetsWith IsAnswer (asks_like name.now expected.now)
        (world (H.state host.old) out) (world (H.state host.new) out) result }
{
    let file = owned(alloc, name.as_str())?;
    match read_file(alloc, host, name.as_str(), expected.len() as u64) {
        Ok(bytes) => {
            let found = like(bytes.as_slice(), expected);
            release(bytes);
            release(file);
            Ok(found)
        },
        Err(FileRefusal::NoFile) => {
            release(file);
            Ok(Likeness::Absent)
        },
        Err(FileRefusal::TooLong { .. }) => {
            release(file);
            Ok(Likeness::Other)
        },
        Err(FileRefusal::Failed) => Err(Stop::CannotRead(file)),
        Err(FileRefusal::NoMemory) => {
            release(file);
            Err(Stop::NoMemory)
        },
    }
}

fn like(bytes: &[u8], expected: &[u8]) -> Likeness
    ensures { result ≡ likeness expected.now (Some bytes.now) }
{
    if bytes == expected {
        Likeness::Same
    } else {
        Likeness::Other
    }
}

/// Finds what the files of a test say, the later only where the earlier are of this test.
///
/// # Errors
///
/// [`Stop`]: a file can't be read.
pub fn find_test<H: Host>(
    alloc: Global,
    host: &mut H,
    isa: IsaSpec,
    work: &Text,
    test: &Test,
) -> Result<Found, Stop>
    requires { IsRunnable isa test.now }
    ensures { (out : SinkState) → MeetsWith IsAnswer (finds_test isa work.now test.now)
        (world (H.state host.old) out) (world (H.state host.new) out) result }
{
    let files = TestFiles::new(alloc, work, &test.name)?;
    let found = find_left(alloc, host, isa, &files, test);
    release(files);
    found
}

fn find_left<H: Host>(
    alloc: Global,
    host: &mut H,
    isa: IsaSpec,
    files: &TestFiles,
    test: &Test,
) -> Result<Found, Stop>
    requires runs { IsRunnable isa test.now }
    requires text { NamesText files.now.test }
    ensures { (out : SinkState) → MeetsWith IsAnswer
        (followed (asks_like files.now.test test.now.text)
        (λ like. if_like like (finds_words files.now isa test.now)))
        (world (H.state host.old) out) (world (H.state host.new) out) result }
{
    match read_like(alloc, host, &files.test, test.text.as_str().as_bytes())? {
        Likeness::Absent => Ok(found_open(alloc, State::NotRun)),
        Likeness::Other => Ok(found_open(alloc, State::OtherTest)),
        Likeness::Same => find_words(alloc, host, isa, files, test),
    }
}

fn find_words<H: Host>(
    alloc: Global,
    host: &mut H,
    isa: IsaSpec,
    files: &TestFiles,
    test: &Test,
) -> Result<Found, Stop>
    requires runs { IsRunnable isa test.now }
    requires text { NamesText files.now.test }
    ensures { (out : SinkState) → MeetsWith IsAnswer (finds_words files.now isa test.now)
        (world (H.state host.old) out) (world (H.state host.new) out) result }
{
    let words = reference_of(alloc, isa, &files.test, test)?;
    let text = print_words(alloc, words.as_slice())?;
    let read = read_like(alloc, host, &files.reference, text.as_str().as_bytes());
    release(text);
    match read? {
        Likeness::Absent => {
            release(words);
            Ok(found_open(alloc, State::NotRun))
        },
        Likeness::Other => {
            release(words);
            Ok(found_open(alloc, State::OtherTest))
        },
        Likeness::Same => find_signature(alloc, host, &files.device, words),
    }
}

/// Judges the device's signature by the reference's words.
fn find_signature<H: Host>(
    alloc: Global,
    host: &mut H,
    name: &Text,
    words: Items<u32>,
) -> Result<Found, Stop>
    ensures { (out : SinkState) → MeetsWith IsAnswer (finds_signature name.now words)
        (world (H.state host.old) out) (world (H.state host.new) out) result }
{
    let file = owned(alloc, name.as_str())?;
    match read_file(alloc, host, name.as_str(), SIGNATURE_LIMIT) {
        Ok(bytes) => {
            release(file);
            let judged = judge_left(alloc, words, bytes.as_slice());
            release(bytes);
            Ok(judged?)
        },
        Err(FileRefusal::NoFile) => {
            release(file);
            release(words);
            Ok(found_open(alloc, State::NoSignature))
        },
        Err(FileRefusal::TooLong { .. }) => {
            release(file);
            release(words);
            Ok(found_open(alloc, State::TooLong))
        },
        Err(FileRefusal::Failed) => {
            release(words);
            Err(Stop::CannotRead(file))
        },
        Err(FileRefusal::NoMemory) => {
            release(file);
            release(words);
            Err(Stop::NoMemory)
        },
    }
}

fn judge_left(alloc: Global, words: Items<u32>, bytes: &[u8]) -> Result<Found, NoMemory>
    ensures { IfOk result (λ found. found ≡ judged_left words bytes.now) }
{
    if bytes.is_empty() && !words.as_slice().is_empty() {
        release(words);
        return Ok(found_open(alloc, State::NoSignature));
    }
    match read_words(alloc, bytes) {
        Ok(device) => Ok(compared(alloc, device, words)),
        Err(Fault::Refused(SigRefusal::BadLine { line })) => {
            release(words);
            Ok(found_open(alloc, State::BadLine { line }))
        },
        Err(Fault::Refused(SigRefusal::TooLong)) => {
            release(words);
            Ok(found_open(alloc, State::TooLong))
        },
        Err(Fault::NoMemory) => {
            release(words);
            Err(NoMemory)
        },
    }
}

fn compared(alloc: Global, device: Items<u32>, reference: Items<u32>) -> Found
    ensures { result ≡ compared device reference (verdict_of device reference) }
{
    let words = reference.as_slice().len();
    match compare(device.as_slice(), reference.as_slice()) {
        Verdict::Same { n } => found_open(alloc, State::Pass { words: n }),
        Verdict::Lengths { left, right } => {
            let state = State::Lengths {
                device: left,
                reference: right,
            };
            found_open(alloc, state)
        },
        Verdict::Differs {
            at,
            left,
            right,
            differing,
        } => {
            let state = State::Differs {
                at,
                left,
                right,
                differing,
                words,
            };
            Found {
                state,
                device,
                reference,
            }
        },
    }
}
