//! A test on the reference machine, and the command `reference`.
#![tactic(auto)]

mod assembling;
mod reference;
mod test_run;

pub use assembling::assemble;
pub use reference::{TEST_LIMIT, run_reference};
pub use test_run::{Run, image_of, limit_of, run_bytes, run_image};
