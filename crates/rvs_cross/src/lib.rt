//! Cross points: what neighbouring instructions have to be.
#![tactic(auto)]

mod building;
mod cross;
mod entries;
mod first;
mod fitting;
mod laws;
mod lists;
mod matching;
mod named;
mod parsing;
mod refusal;
mod used;
mod values;
mod variables;

pub use cross::{Assignment, Cross, Field, Place, Variable, in_order, places};
pub use first::first_ops;
pub use fitting::fits;
pub use laws::one_mnemonic_is_read;
pub use matching::matches;
pub use parsing::parse_cross;
pub use refusal::{CrossRead, CrossRefusal};
pub use used::is_used;
pub use values::{Values, same_register, value_of};
pub use variables::same_field;
