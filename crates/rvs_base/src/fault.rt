// Why a call that reads an input gives no value.
ghost use Rattle.std.specs.Prelude.{◌≡◌};
ghost use Rattle.rvs_base.specs.declared.fault.Fault.TheVariants.{NoMemory};

use crate::NoMemory;
use std::alloc::{AllocError, AllocFailed};

/// Why a call that reads an input gives no value.
#[derive(Drop, Clone, Copy)]
pub enum Fault<R> {
    /// The input is refused.
    Refused(R),
    /// The allocator refused.
    NoMemory,
}

impl<R> From<NoMemory> for Fault<R> {
    ghost from_gives = { λ _ fault. fault ≡ NoMemory };

    fn from(_: NoMemory) -> Self {
        Fault::NoMemory
    }
}

impl<R> From<AllocError> for Fault<R> {
    ghost from_gives = { λ _ fault. fault ≡ NoMemory };

    fn from(_: AllocError) -> Self {
        Fault::NoMemory
    }
}

impl<T: Drop, R> From<AllocFailed<T>> for Fault<R> {
    ghost from_gives = { λ _ fault. fault ≡ NoMemory };

    fn from(_: AllocFailed<T>) -> Self {
        Fault::NoMemory
    }
}
