//! A demonstration: a generated program is run, and its coverage counted.
#![tactic(auto)]

mod counting;
mod demo;
mod label;
mod laws;
mod program;

pub use demo::demo_text;
pub use laws::each_key_is_a_point;
