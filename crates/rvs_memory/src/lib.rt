//! A host in memory, over which tests run what works on files and devices.
#![tactic(auto)]

mod answers;
mod memory_host;
mod memory_run;

pub use answers::{Answer, Leaves};
pub use memory_host::{Files, MemoryHost};
