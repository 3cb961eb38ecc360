// Logs that are taken one after the other.
ghost use Rattle.std.specs.Prelude.{◌≡◌, ℕ, List, Err, IfErr, IfOk, OnOk};
ghost use Rattle.rvs_base.specs.Sink.{SinkState};
ghost use Rattle.rvs_plan.specs.World.{world};
ghost use Rattle.rvs_plan.specs.Meets.{Meets};
ghost use Rattle.rvs_log.specs.Progress.{lines_of_file};
ghost use Rattle.rvs_coverage.specs.LogReport.{TakesLog, takes_log, takes_logs};
ghost use Rattle.rvs_coverage.specs.Telling.{HasToldOf, as_planned, lines_of_logs, stop_of};

use crate::unfinished::Unfinished;
use rvs_base::{Host, Sink};
use rvs_log::{Consumer, LogFault, Reader, feed_file};
use rvs_plan::{Stop, too_long};
use rvs_words::owned;
use std::alloc::Global;

/// The greatest length of a log in bytes: 2^40.
pub(crate) const LOG_LIMIT: u64 = 1 << 40;

/// Takes logs, and adds up what is known of them.
pub trait LogTaker {
    ghost use Rattle.std.specs.Prelude.{ℕ, List};

    /// What tells which log it is.
    type Log;

    /// What is known of some logs.
    type Known: Drop;

    /// What a log's file is called.
    ghost name: { Self.Log → List ℕ };

    /// What is known with the bytes of a log more.
    ghost more: { Self → Self.Log → Self.Known → List ℕ → Self.Known };

    /// That so many numbers are known.
    ghost fits: { ℕ → Self.Known → Type 0 };

    /// Takes a log by itself, onto what is known of those before.
    ///
    /// # Errors
    ///
    /// [`Unfinished`].
    fn take_one<H: Host, E: Sink>(
        &mut self,
        alloc: Global,
        host: &mut H,
        err: &mut E,
        progress: bool,
        known: Self::Known,
        log: &Self::Log,
    ) -> Result<Self::Known, Unfinished>
        ensures met { (out : SinkState) → Meets
            (takes_log (more self.old log.now) known (name log.now))
            (world (H.state host.old) out) (world (H.state host.new) out) (as_planned result) }
        ensures fits { (n : ℕ) → fits n known → IfOk result (fits n) }
        ensures same { OnOk result (more self.new ≡ more self.old) }
        ensures told { HasToldOf progress
            (λ files. lines_of_file (name log.now) (files (name log.now)))
            (H.state host.old) (E.state err.old) (E.state err.new) result };
}

/// Takes some logs more, one after the other.
///
/// # Errors
///
/// [`Unfinished`].
pub fn take_onto<H: Host, E: Sink, T: LogTaker>(
    alloc: Global,
    host: &mut H,
    err: &mut E,
    progress: bool,
    taker: &mut T,
    none: T::Known,
    logs: &[T::Log],
) -> Result<T::Known, Unfinished>
    ensures met { (out : SinkState) → Meets
        (takes_logs T.name (T.more taker.old) none logs.now)
        (world (H.state host.old) out) (world (H.state host.new) out) (as_planned result) }
    ensures fits { (n : ℕ) → T.fits n none → IfOk result (T.fits n) }
    ensures told { HasToldOf progress (lines_of_logs T.name logs.now)
        (H.state host.old) (E.state err.old) (E.state err.new) result }
{
    let mut known = none;
    for log in logs {
        known = taker.take_one(alloc, host, err, progress, known, log)?;
    }
    Ok(known)
}

/// Reads the named log to its end with a reader that was fed nothing. `K` is what comes to be known
/// of it.
///
/// # Errors
///
/// [`Unfinished`].
// The buffer for the log would lie on the stack under every command if this were inlined.
#[inline(never)]
pub fn take_log<H: Host, E: Sink, C: Consumer, K>(
    alloc: Global,
    host: &mut H,
    err: &mut E,
    progress: bool,
    reader: &mut Reader<C>,
    log: &str,
) -> Result<(), Unfinished>
    ensures taken { OnOk result (TakesLog C.step log.now (H.state host.old) (H.state host.new)
        reader.old reader.new) }
    ensures stopped { IfErr result (λ unfinished. (out : SinkState) (more : K → List ℕ → K)
        (known : K) → reader.old.fed ≡ 0 → Meets (takes_log more known log.now)
        (world (H.state host.old) out) (world (H.state host.new) out) (Err (stop_of unfinished))) }
    ensures told { HasToldOf progress (λ files. lines_of_file log.now (files log.now))
        (H.state host.old) (E.state err.old) (E.state err.new) result }
{
    let name = owned(alloc, log)?;
    match feed_file(alloc, host, err, progress, log, reader) {
        Ok(()) => {
            reader.finish();
            Ok(())
        },
        Err(LogFault::NoFile) => Err(Unfinished::Stopped(Stop::NoFile(name))),
        Err(LogFault::Failed) => Err(Unfinished::Stopped(Stop::CannotRead(name))),
        Err(LogFault::TooLong) => Err(Unfinished::Stopped(Stop::Refused(too_long(
            alloc, log, LOG_LIMIT,
        )?))),
        Err(LogFault::NoMemory) => Err(Unfinished::Stopped(Stop::NoMemory)),
        Err(LogFault::Untold) => Err(Unfinished::Untold),
    }
}
