// Telling how far a file has been read.
ghost use Rattle.std.specs.Prelude.{◌≡◌, ◌≤◌, ◌+◌, ◌*◌, ◌/◌, ◌^◌, ◌&&◌, [], cond, nat_lt};
ghost use Rattle.std.specs.Prelude.{IfErr, IfOk, OnOk, true};
ghost use Rattle.rvs_log.specs.Progress.{Loses, progress_line, put, step};

use crate::fault::LogFault;
use rvs_base::{NoMemory, Sink, Text, put_all};
use std::alloc::Global;

/// A line is put for each of so many bytes.
const STEP: u64 = 1 << 30;

/// Takes note of so many more bytes that were read of the named file, and gives how many they are
/// with those before. Where it is asked for, a line says how many MiB were read, as soon as another
/// 1,024 of them were.
///
/// # Errors
///
/// [`LogFault`]: `NoMemory` and `Untold`; never where it isn't asked for.
pub(crate) fn tell_read<E: Sink>(
    alloc: Global,
    err: &mut E,
    asked: bool,
    name: &str,
    before: u64,
    count: usize,
) -> Result<u64, LogFault>
    requires few { before + count ≤ 2 ^ 41 }
    ensures read { IfOk result (λ read. read ≡ before + count) }
    ensures told { OnOk result (E.state err.new ≡ put
        (cond (asked && nat_lt (before / step) ((before + count) / step))
        (progress_line name.now ((before + count) / step)) []) (E.state err.old)) }
    ensures lost { IfErr result (Loses
        (asked && nat_lt (before / step) ((before + count) / step))
        (progress_line name.now ((before + count) / step)) (E.state err.old) (E.state err.new)) }
{
    let read = before + count as u64;
    let passes = asked && before / STEP < read / STEP;
    tell_step(alloc, err, passes, name, read / STEP)?;
    Ok(read)
}

/// Puts the line of so many steps, where one more has been passed.
fn tell_step<E: Sink>(
    alloc: Global,
    err: &mut E,
    passes: bool,
    name: &str,
    steps: u64,
) -> Result<(), LogFault>
    requires few { steps ≤ 2 ^ 20 * 2 }
    ensures told { OnOk result (E.state err.new
        ≡ put (cond passes (progress_line name.now steps) []) (E.state err.old)) }
    ensures lost { IfErr result
        (Loses passes (progress_line name.now steps) (E.state err.old) (E.state err.new)) }
{
    if !passes {
        return Ok(());
    }
    let line = step_line(alloc, name, steps)?;
    put_line(err, line.as_str().as_bytes())
}

#[tactic(auto, unfolding(crate::specs::Progress::progress_line))]
fn step_line(alloc: Global, name: &str, steps: u64) -> Result<Text, NoMemory>
    requires few { steps ≤ 2 ^ 20 * 2 }
    ensures { IfOk result (λ line. line ≡ progress_line name.now steps) }
{
    let read = 1024 * steps;
    Ok(Text::from(format!(in alloc; "rvsuite: {name}: read {read} MiB\n")?))
}

fn put_line<E: Sink>(err: &mut E, line: &[u8]) -> Result<(), LogFault>
    ensures told { OnOk result (E.state err.new ≡ put line.now (E.state err.old)) }
    ensures lost { IfErr result (Loses true line.now (E.state err.old) (E.state err.new)) }
{
    match put_all(err, line) {
        Ok(()) => Ok(()),
        Err(_) => Err(LogFault::Untold),
    }
}
