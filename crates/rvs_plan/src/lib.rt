//! What commands do to the outside, step by step, and how they end.
#![tactic(auto)]

mod laws;
mod refusing;
mod reports;
mod status;
mod steps;
mod stop;

pub use laws::plans_are_lists;
pub use refusing::{accepted, input_text};
pub use reports::{conclude, report};
pub use status::{Finish, Status};
pub use steps::{print, read_input, read_part, too_long, write_output};
pub use stop::Stop;
