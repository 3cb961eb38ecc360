//! Coverage points: what they are, what a key says, and when an instruction hits them.
#![tactic(auto)]

mod group;
mod hits;
mod keys;
mod reading;
mod refusal;

pub use group::{Groups, Kind, Label, Meaning, Point, Skipped};
pub use hits::is_meant;
pub use keys::{is_label_name, is_printable};
pub use reading::{Said, read_key};
pub use refusal::CgfKind;
