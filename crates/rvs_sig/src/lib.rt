//! Signature files: hexadecimal words, one a line, read, written and compared.
#![tactic(auto)]

mod comparison;
mod digits;
mod refusing;
mod words;

pub use comparison::{Verdict, compare};
pub use words::{SigRefusal, print_words, read_words};
