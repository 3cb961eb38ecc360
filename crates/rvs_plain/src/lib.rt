//! The commands that put one text: `compare`, `validate`, `normalize`, `select` and `demo`.
#![tactic(auto)]

mod comparing;
mod demonstrating;
mod normalizing;
mod selecting;
mod texts;
mod validating;

pub use comparing::compare_files;
pub use demonstrating::demonstrate;
pub use normalizing::normalize_files;
pub use selecting::select_tests;
pub use validating::validate_file;
