//! The tests of coverage groups, and the command `generate`.
#![tactic(auto)]

mod expected;
mod gathering;
mod generating;
mod listing;
mod making;
mod rooms;
mod sources;
mod test_files;

pub use expected::reference_of;
pub use gathering::{Gathered, Test, gather_tests};
pub use generating::generate_tests;
pub use making::made_of;
pub use rooms::{read_labels, read_tested};
pub use sources::{Given, Source, name_of};
pub use test_files::TestFiles;
