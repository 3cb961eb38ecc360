//! The first choice of operands that hits a point.
#![tactic(auto)]

mod datasets;
mod laws;
mod operand;
mod orders;
mod registers;
mod solving;
mod truth;
mod values;
mod walk;

pub use laws::{
    bounds_of_some_points, first_choices_of_some_points, mnemonics_take_the_first_registers,
};
pub use rvs_choice::{Choice, Solved};
pub use solving::solve;
