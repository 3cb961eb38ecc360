// Blocks that aren't complete.
use crate::reading::Pending;
use rvs_tree::{Value, ValueList};
use rvs_yaml_text::Head;

/// An anchor's name, and the value of its node.
#[derive(Drop)]
pub(crate) struct Anchor<'a> {
    pub name: &'a str,
    pub value: Value,
}

/// The members that a block has so far, without its open one: the items of a list, the entries of a
/// map with the key of the open one, or nothing beside the leaf itself.
#[derive(Drop)]
pub(crate) enum Done {
    Items(ValueList),
    Entries(Box<Pending>),
    Alone,
}

/// What a block has so far: its first line and its column, its members, and how many anchors were
/// complete when it began. Those behind them are in it.
#[derive(Drop)]
pub(crate) struct Block {
    pub line: u64,
    pub column: usize,
    pub done: Done,
    pub before: usize,
}

/// A block that isn't complete, its last word, and what that word is by itself, where something is
/// behind it. It is kept small, since a line may open millions.
#[derive(Drop)]
pub(crate) struct Open<'a> {
    pub block: Block,
    pub head: Head<'a>,
    pub own: Option<Box<Value>>,
}
