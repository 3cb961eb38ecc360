//! The whole of what the program does: words in, effects and a status out.
#![tactic(auto)]

mod suite;

pub use rvs_plan::Status;
pub use rvs_reference::assemble;
pub use suite::run_suite;
