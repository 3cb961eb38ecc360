//! Trees of texts, and the values that a reader makes of them: with their nodes counted and their
//! depth bounded, in lists and maps, with what a map merges resolved.
#![tactic(auto)]

mod brought;
mod counted;
mod draft;
mod entry_list;
mod gather;
mod gathering;
mod held;
mod key_depth;
mod keys;
mod letting;
mod members;
mod merge_keys;
mod merged;
mod merged_keys;
mod pairs;
mod parts;
mod spread;
mod taken;
mod thin;
mod tree;
mod value;
mod value_list;
mod whole;
mod written;

pub use brought::{brought_depths, deepest_of};
pub use counted::Value;
pub use draft::{Draft, Part};
pub use entry_list::EntryList;
pub use held::Held;
pub use key_depth::KeyDepth;
pub use members::{DEEP, depth_up_to};
pub use merged::{list_value, map_value, own_keys_stay};
pub use merged_keys::MergedKeys;
pub use thin::{thin_list_value, thin_map_value, thin_value};
pub use tree::Tree;
pub use value::{plus, scalar_value, shared_value, text_nodes};
pub use value_list::ValueList;
pub use whole::{into_tree, tree_of};
pub use written::Written;
