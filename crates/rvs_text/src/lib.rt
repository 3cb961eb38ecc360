//! Texts, for the readers of words, specifications, expressions, groups, logs and executables:
//! names at their front, spaces at their ends, and their parts. `bytes` has for bytes what stands
//! here for texts.
#![tactic(auto)]

pub mod bytes;
mod cutting;
mod spaces;

pub use cutting::{around, around_text, before_end, behind, behind_token, parts};
pub use spaces::{trimmed, without_end, without_spaces};
