//! What the text of a test is, statement by statement, and that every such text runs, hits its
//! cases and leaves their outcomes.
#![tactic(auto)]

mod claim;
mod laws;
mod statement;

pub use claim::{Claim, case_at, claims_after};
pub use laws::tests_run;
pub use statement::{Fixed, Name, Statement};
