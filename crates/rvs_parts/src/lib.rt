//! Parts of a list: each thing is in one of several, by its place.
#![tactic(auto)]

mod laws;
mod part;

pub use laws::parts_are_the_whole;
pub use part::Part;
