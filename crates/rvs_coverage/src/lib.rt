//! The command `coverage`, and what it shares with `propagate`: taking one log after the other.
#![tactic(auto)]

mod covering;
mod log_lines;
mod summing;
mod taking_logs;
mod unfinished;

pub use covering::{Covered, count_quietly, cover_log};
pub use log_lines::under_lines;
pub use summing::{plus_each, total_of, with_number};
pub use taking_logs::{LogTaker, take_log, take_onto};
pub use unfinished::{Unfinished, unlost};
