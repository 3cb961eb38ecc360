// Why a command stops before its end.
ghost use Rattle.std.specs.Prelude.{◌≡◌};
ghost use Rattle.rvs_plan.specs.declared.stop.Stop.TheVariants.{NoMemory};

use rvs_base::Text;
use std::alloc::AllocError;

/// Why a command stops before its end. A text names the file, or is the line's reason.
#[derive(Drop)]
pub enum Stop {
    /// The words are no command.
    Usage,
    /// An input was refused, for this reason.
    Refused(Text),
    /// An input file that isn't there.
    NoFile(Text),
    /// A file that couldn't be opened or read.
    CannotRead(Text),
    /// A file that couldn't be written.
    CannotWrite(Text),
    /// The test file of a device run that failed.
    CannotRun(Text),
    /// The allocator refused.
    NoMemory,
    /// The sink for output failed.
    SinkFault,
}

impl From<rvs_base::NoMemory> for Stop {
    ghost from_gives = { λ _ stop. stop ≡ NoMemory };

    fn from(_: rvs_base::NoMemory) -> Self {
        Stop::NoMemory
    }
}

impl From<AllocError> for Stop {
    ghost from_gives = { λ _ stop. stop ≡ NoMemory };

    fn from(_: AllocError) -> Self {
        Stop::NoMemory
    }
}
