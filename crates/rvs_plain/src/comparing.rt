// The command `compare`.
ghost use Rattle.std.specs.Prelude.{◌≡◌};
ghost use Rattle.rvs_base.specs.Host.{HostState};
ghost use Rattle.rvs_base.specs.Sink.{SinkState};
ghost use Rattle.rvs_plan.specs.World.{World, world};
ghost use Rattle.rvs_plan.specs.Meets.{Meets};
ghost use Rattle.rvs_plain.specs.Compare.{words, signature, verdict_finish, announce, compare};

use crate::texts;
use rvs_base::{Host, Items, Sink, Text};
use rvs_device::SIGNATURE_LIMIT;
use rvs_plan::{Finish, Stop, accepted, print, read_input};
use rvs_sig::{Verdict, compare, read_words};
use rvs_words::CompareArguments;
use std::alloc::Global;

/// Compares two signature files, and puts the verdict. Where neither is accepted, the left one is
/// told.
///
/// # Errors
///
/// [`Stop`]; nothing is put before both files are accepted.
pub fn compare_files<H: Host, O: Sink>(
    alloc: Global,
    asked: &CompareArguments,
    host: &mut H,
    out: &mut O,
) -> Result<Finish, Stop>
    ensures { Meets (compare asked.now) (world (H.state host.old) (O.state out.old))
        (world (H.state host.new) (O.state out.new)) result }
{
    let left_words = read_signature(alloc, host, &asked.left)?;
    let right_words = read_signature(alloc, host, &asked.right)?;
    print_verdict(alloc, left_words.as_slice(), right_words.as_slice(), out)
}

/// Reads a signature file and checks it.
///
/// # Errors
///
/// [`Stop`].
pub fn read_signature<H: Host>(alloc: Global, host: &mut H, name: &Text) -> Result<Items<u32>, Stop>
    ensures { (out : SinkState) → Meets (signature name.now) (world (H.state host.old) out)
        (world (H.state host.new) out) result }
{
    let bytes = read_input(alloc, host, name.as_str(), SIGNATURE_LIMIT)?;
    check_words(alloc, name.as_str(), bytes.as_slice())
}

fn check_words(alloc: Global, name: &str, bytes: &[u8]) -> Result<Items<u32>, Stop>
    ensures { (w : World) → Meets (words name.now bytes.now) w w result }
{
    accepted(alloc, name, read_words(alloc, bytes))
}

fn print_verdict<O: Sink>(
    alloc: Global,
    left: &[u32],
    right: &[u32],
    out: &mut O,
) -> Result<Finish, Stop>
    ensures { (host : HostState) → Meets (announce left.now right.now)
        (world host (O.state out.old)) (world host (O.state out.new)) result }
{
    let verdict = compare(left, right);
    let line = texts::verdict_line(alloc, left.len(), &verdict)?;
    print(out, line.as_str().as_bytes())?;
    Ok(finish_of(&verdict))
}

fn finish_of(verdict: &Verdict) -> Finish
    ensures { result ≡ verdict_finish verdict.now }
{
    match verdict {
        Verdict::Same { .. } => Finish::Done,
        Verdict::Differs { .. } | Verdict::Lengths { .. } => Finish::NotPassed,
    }
}
