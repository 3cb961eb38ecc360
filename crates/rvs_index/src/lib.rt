//! Which points of coverage groups an instruction hits, and which cross points neighbours match.
#![tactic(auto)]

mod alike;
mod asked;
mod bounded;
mod buckets;
mod cell;
mod crosses;
mod entries;
mod hits;
mod index;
mod joined;
mod key;
mod known_facts;
mod mark;
mod matched;
mod said;
mod shortcut;
mod slot;
mod slots;
mod sorted;
mod tables;
mod taken;
mod wanted;

pub use crosses::Crosses;
pub use index::Index;
