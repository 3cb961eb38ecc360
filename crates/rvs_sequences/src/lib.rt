//! Instructions that solve cross points.
#![tactic(auto)]

mod choosing;
mod solving;

pub use solving::solve_cross;
