// Why a log isn't read.
ghost use Rattle.std.specs.Prelude.{◌≡◌};

use crate::reader::LogTooLong;
use rvs_base::{Failed, NoMemory, OpenFault};
use thiserror::Error;

/// Why a log wasn't read to its end.
#[derive(Debug, Drop, Clone, Copy, Error)]
pub enum LogFault {
    /// There is no file of this name.
    #[error("no such file")]
    NoFile,
    /// Opening or reading failed.
    #[error("reading failed")]
    Failed,
    /// More than 2^40 bytes would be fed.
    #[error("longer than 1099511627776 bytes")]
    TooLong,
    /// The allocator refused a line of progress.
    #[error("out of memory")]
    NoMemory,
    /// A line of progress couldn't be put.
    #[error("telling failed")]
    Untold,
}

impl From<OpenFault> for LogFault {
    ghost use Rattle.rvs_log.specs.Feeds.{fault_of};

    ghost from_gives = { λ fault refusal. refusal ≡ fault_of fault };

    fn from(fault: OpenFault) -> Self {
        match fault {
            OpenFault::NoFile => LogFault::NoFile,
            OpenFault::Failed => LogFault::Failed,
        }
    }
}

impl From<Failed> for LogFault {
    ghost use Rattle.rvs_log.specs.declared.fault.LogFault.TheVariants.{Failed};

    ghost from_gives = { λ _ refusal. refusal ≡ Failed };

    fn from(_: Failed) -> Self {
        LogFault::Failed
    }
}

impl From<NoMemory> for LogFault {
    ghost use Rattle.rvs_log.specs.declared.fault.LogFault.TheVariants.{NoMemory};

    ghost from_gives = { λ _ refusal. refusal ≡ NoMemory };

    fn from(_: NoMemory) -> Self {
        LogFault::NoMemory
    }
}

impl From<LogTooLong> for LogFault {
    ghost use Rattle.rvs_log.specs.declared.fault.LogFault.TheVariants.{TooLong};

    ghost from_gives = { λ _ refusal. refusal ≡ TooLong };

    fn from(_: LogTooLong) -> Self {
        LogFault::TooLong
    }
}
