// Want of memory, as an error without fields.
use std::alloc::{AllocError, AllocFailed};

/// The allocator refused.
#[derive(Debug, Drop, Clone, Copy)]
pub struct NoMemory;

impl From<AllocError> for NoMemory {
    fn from(_: AllocError) -> Self {
        NoMemory
    }
}

impl<T: Drop> From<AllocFailed<T>> for NoMemory {
    fn from(_: AllocFailed<T>) -> Self {
        NoMemory
    }
}
