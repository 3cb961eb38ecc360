// How work ends that tells its progress.
ghost use Rattle.std.specs.Prelude.{◌≡◌};
ghost use Rattle.rvs_plan.specs.declared.stop.Stop.TheVariants.{NoMemory};
ghost use Rattle.rvs_coverage.specs.declared.unfinished.Unfinished.TheVariants.{Stopped};
ghost use Rattle.rvs_coverage.specs.Telling.{as_planned, unlost};

use rvs_base::NoMemory;
use rvs_plan::Stop;
use std::alloc::AllocError;

/// Why work that tells its progress didn't come to its end.
#[derive(Drop)]
pub enum Unfinished {
    /// It stopped.
    Stopped(Stop),
    /// A line of progress couldn't be put.
    Untold,
}

impl From<Stop> for Unfinished {
    ghost from_gives = { λ stop unfinished. unfinished ≡ Stopped stop };

    fn from(stop: Stop) -> Self {
        Unfinished::Stopped(stop)
    }
}

impl From<NoMemory> for Unfinished {
    ghost from_gives = { λ _ unfinished. unfinished ≡ Stopped NoMemory };

    fn from(_: NoMemory) -> Self {
        Unfinished::Stopped(Stop::NoMemory)
    }
}

impl From<AllocError> for Unfinished {
    ghost from_gives = { λ _ unfinished. unfinished ≡ Stopped NoMemory };

    fn from(_: AllocError) -> Self {
        Unfinished::Stopped(Stop::NoMemory)
    }
}

/// The end of work that has no progress to tell.
pub fn unlost<T>(outcome: Result<T, Stop>) -> Result<T, Unfinished>
    ensures { result ≡ unlost outcome }
{
    match outcome {
        Ok(value) => Ok(value),
        Err(stop) => Err(Unfinished::Stopped(stop)),
    }
}

/// The end of such work where nothing is told.
pub(crate) fn as_planned<T>(outcome: Result<T, Unfinished>) -> Result<T, Stop>
    ensures { result ≡ as_planned outcome }
{
    match outcome {
        Ok(value) => Ok(value),
        Err(Unfinished::Stopped(stop)) => Err(stop),
        // (where nothing is told this doesn't come)
        Err(Unfinished::Untold) => Err(Stop::NoMemory),
    }
}
