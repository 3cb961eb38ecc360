//! Test texts: from choices to a text whose run hits them.
#![tactic(auto)]

mod case_lines;
mod finding;
mod frame_lines;
mod laws;
mod made;
mod making;
mod printing;
mod room;
mod shorthands;
mod sizes;
mod writing;

pub use laws::{claims_are_in_order, few_registers_are_enough};
pub use made::Made;
pub use making::make_test;
pub use room::has_room;
pub use rvs_test_text::Claim;
