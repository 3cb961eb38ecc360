// The steps that commands are made of. Each says what it did by the plan of that step.
ghost use Rattle.std.specs.Prelude.{◌≡◌, ◌<◌, ◌^◌, IfOk};
ghost use Rattle.rvs_base.specs.Host.{HostState};
ghost use Rattle.rvs_base.specs.Sink.{SinkState};
ghost use Rattle.rvs_plan.specs.World.{world};
ghost use Rattle.rvs_plan.specs.Plan.{prints, writes};
ghost use Rattle.rvs_plan.specs.Inputs.{part, input, too_long_text};
ghost use Rattle.rvs_plan.specs.Meets.{Meets};

use crate::Stop;
use rvs_base::{Bytes, FileRefusal, Host, NoMemory, Sink, Text, put_all, read_file};
use std::alloc::Global;

/// Puts all the bytes to the output.
///
/// # Errors
///
/// [`Stop::SinkFault`]; a front of the bytes is out.
pub fn print<O: Sink>(out: &mut O, bytes: &[u8]) -> Result<(), Stop>
    ensures { (host : HostState) → Meets (prints bytes.now) (world host (O.state out.old))
        (world host (O.state out.new)) result }
{
    match put_all(out, bytes) {
        Ok(()) => Ok(()),
        Err(_) => Err(Stop::SinkFault),
    }
}

/// Reads an input file to its end, or to one byte past its limit.
///
/// # Errors
///
/// [`Stop::NoFile`], [`Stop::CannotRead`] and [`Stop::NoMemory`]; [`Stop::Refused`] where the file
/// has more than `limit` bytes.
pub fn read_input<H: Host>(
    alloc: Global,
    host: &mut H,
    name: &str,
    limit: u64,
) -> Result<Bytes, Stop>
    requires { limit < 2 ^ 63 }
    ensures { (out : SinkState) → Meets (input limit name.now) (world (H.state host.old) out)
        (world (H.state host.new) out) result }
{
    read_part(alloc, host, name, limit, name, limit)
}

/// Reads a file that is a part of an input which is made of several. `limit` is what the earlier
/// parts have left of the limit of the whole; the last two name the whole and its limit, `most`, in
/// the line of a refusal.
///
/// # Errors
///
/// Those of [`read_input`].
pub fn read_part<H: Host>(
    alloc: Global,
    host: &mut H,
    name: &str,
    limit: u64,
    whole: &str,
    most: u64,
) -> Result<Bytes, Stop>
    requires { limit < 2 ^ 63 }
    ensures { (out : SinkState) → Meets (part limit name.now whole.now most)
        (world (H.state host.old) out) (world (H.state host.new) out) result }
{
    let file = Text::from(String::from_str(alloc, name)?);
    match read_file(alloc, host, name, limit) {
        Ok(bytes) => Ok(bytes),
        Err(FileRefusal::NoFile) => Err(Stop::NoFile(file)),
        Err(FileRefusal::Failed) => Err(Stop::CannotRead(file)),
        Err(FileRefusal::NoMemory) => Err(Stop::NoMemory),
        Err(FileRefusal::TooLong { .. }) => { Err(Stop::Refused(too_long(alloc, whole, most)?)) },
    }
}

/// Why an input, named so in the line of its refusal, is too long.
///
/// # Errors
///
/// [`NoMemory`].
pub fn too_long(alloc: Global, whole: &str, most: u64) -> Result<Text, NoMemory>
    ensures { IfOk result (λ text. text ≡ too_long_text whole.now most) }
{
    Ok(Text::from(format!(in alloc; "{whole}: length {most}")?))
}

/// Makes an output file hold these bytes. The name is owned, since it is the stop's where writing
/// fails.
///
/// # Errors
///
/// [`Stop::CannotWrite`]; the file is as before, absent, or a front of the bytes.
pub fn write_output<H: Host>(host: &mut H, name: Text, bytes: &[u8]) -> Result<(), Stop>
    ensures { (out : SinkState) → Meets (writes name bytes.now) (world (H.state host.old) out)
        (world (H.state host.new) out) result }
{
    match host.write_file(name.as_str(), bytes) {
        Ok(()) => Ok(()),
        Err(_) => Err(Stop::CannotWrite(name)),
    }
}
