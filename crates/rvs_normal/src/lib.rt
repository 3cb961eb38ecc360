//! What `normalize` prints is read again: laws of the YAML profile and of coverage groups together,
//! and no code of the program.
#![tactic(auto)]

mod laws;

pub use laws::{an_example_is_read_again, keys_stand_once, normal_text_is_read_again};
