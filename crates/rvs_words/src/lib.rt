//! What the words of a command line ask for.
#![tactic(auto)]

mod command;
mod database_commands;
mod families;
mod group_commands;
mod laws;
mod logs;
mod parts;
mod progress;
mod reading;
mod unread;
mod windows;
mod words;

pub use command::{
    Command, CompareArguments, CoverageArguments, GenerateArguments, NormalizeArguments,
    PropagateArguments, ReferenceArguments, ReportArguments, RunArguments, RunDatabaseArguments,
    SelectArguments, SignedLog, ValidateArguments, release_command,
};
pub use laws::{commands_are_read, numbers_are_read, options_stand_in_any_order};
pub use reading::read_command;
pub use words::owned;
