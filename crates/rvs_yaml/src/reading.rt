// Flow collections that are open.
use rvs_tree::{EntryList, Value, ValueList};
use rvs_yaml_text::{Bracket, Key};

/// The entries of an open map, and the key whose value comes next.
#[derive(Drop)]
pub(crate) struct Pending {
    pub list: EntryList,
    pub key: Key,
}

/// What may come next in an open collection. It is kept small, since a text may open millions.
#[derive(Drop)]
pub(crate) enum FlowState {
    Member(ValueList),
    BehindMember(ValueList),
    KeyPlace(EntryList),
    EntryValue(Box<Pending>),
    BehindEntry(EntryList),
}

/// An open collection: its bracket, and the place in it.
#[derive(Drop)]
pub(crate) struct Level {
    pub bracket: Bracket,
    pub place: FlowState,
}

/// A flow collection that is read: the open collections, the innermost apart, or the whole. `good`
/// says whether all that it merges so far can be merged.
#[derive(Drop)]
pub(crate) enum Reading {
    Inside(bool, Level, Vec<Level>),
    Whole(Value, bool),
}

/// A flow collection that is read: whether a closing bracket was read last, whether a space stands
/// before the text that is left, and that text.
#[derive(Drop)]
pub(crate) struct Flowing<'a> {
    pub reading: Reading,
    pub closed: bool,
    pub spaced: bool,
    pub rest: &'a str,
}

/// A flow collection that is looked through: how many collections are open, how deep it got, from
/// 33 on counted as 33, and as in `Flowing` what is left.
#[derive(Drop)]
pub(crate) struct Scan<'a> {
    pub level: u128,
    pub reached: u64,
    pub closed: bool,
    pub spaced: bool,
    pub rest: &'a str,
}
