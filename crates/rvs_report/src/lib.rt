//! The command `report`: what a run left, judged anew, on one page.
#![tactic(auto)]

mod reporting;
mod reviewing;

pub use reporting::report_run;
pub use reviewing::Likeness;
pub use rvs_showing::Found;
