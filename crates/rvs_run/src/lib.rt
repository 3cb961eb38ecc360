//! The command `run`, over coverage groups and over a database.
#![tactic(auto)]

mod judging;
mod run;
mod run_database;

pub use judging::Made;
pub use run::run_tests;
pub use run_database::run_selected;
