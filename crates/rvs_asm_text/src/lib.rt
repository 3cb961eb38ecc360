//! The texts of the assembler: how a text is cut into lines, and how a line is read.
#![tactic(auto)]

mod arguments;
mod bodies;
mod cutting;
mod directives;
mod drafts;
mod header;
mod instructions;
mod names;
mod numbers;
mod reading;
mod registers;

pub use arguments::{Bracketed, Operands};
pub use bodies::{Body, Line, LineFault, Link, Value};
pub use directives::read_value;
pub use header::steps_of_header;
pub use instructions::fits_field;
pub use names::Name;
pub use numbers::number;
pub use reading::read_line;
pub use registers::register;
