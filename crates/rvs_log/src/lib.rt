//! The lines of execution logs: written, read, and cut out of pieces.
#![tactic(auto)]

mod consumer;
mod fault;
mod file;
mod follow;
mod laws;
mod places;
mod plain;
mod progress;
mod reader;
mod reading;
mod registers;
mod tokens;
mod view;
mod words;
mod written;

pub use consumer::{Consumer, Executing};
pub use fault::LogFault;
pub use file::feed_file;
pub use follow::{Cut, Follow, LONGEST};
pub use laws::{lines_differ, logs_read_back};
pub use reader::{LogTooLong, Reader};
pub use reading::{Line, Record, read_line, read_line_for};
pub use registers::Registers;
pub use view::{View, facts_of};
pub use written::{log_line, log_line_length, log_record};
