//! Reading of the suite's YAML profile: block lists and maps, flow collections, plain and quoted
//! scalars, anchors, aliases and merges, as a tree of texts.
#![tactic(auto)]

mod anchor_list;
mod anchoring;
mod arrivals;
mod arriving;
mod beginning;
mod chain;
mod closing;
mod entry;
mod fill;
mod flow;
mod flow_places;
mod flow_refusals;
mod flow_text;
mod front;
mod height;
mod keys;
mod known;
mod line;
mod next_entries;
mod open;
mod open_blocks;
mod own;
mod printing;
mod reach;
mod reader;
mod reading;
mod refusal;
mod seen;
mod sight;
mod sketch;
mod stack;
mod taking;

pub use reader::{fronts_have_trees, parse, refusals_are_least};
pub use refusal::YamlRefusal;
pub use rvs_tree::Tree;
pub use rvs_yaml_text::YamlKind;
