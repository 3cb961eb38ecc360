//! The facts of an instruction: the names of expressions, their values where a table of facts is
//! that of an instruction and of what its source registers hold.
#![tactic(auto)]

mod facts;
mod mnemonics;

pub use facts::InsnFacts;
pub use mnemonics::{is_same, number};
