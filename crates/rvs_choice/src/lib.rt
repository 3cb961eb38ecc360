//! Choices of operands: what makes a case of a test.
#![tactic(auto)]

mod choice;
mod solved;

pub use choice::Choice;
pub use solved::Solved;
