//! The command `propagate`.
#![tactic(auto)]

mod propagating;

pub use propagating::{Traced, propagate_log};
