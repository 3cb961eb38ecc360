//! What the page of a run shows of a label.
#![tactic(auto)]

mod found;
mod showing;

pub use found::Found;
pub use showing::{shown_label, unselected};
