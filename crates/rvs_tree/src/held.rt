// Values that are whole, or whose merges aren't worked out.
use crate::draft::Draft;
use crate::tree::Tree;
use std::rc::Rc;

/// A whole tree, or a collection whose merges aren't worked out.
#[derive(Drop)]
pub enum Held {
    /// A whole tree.
    Whole(Rc<Tree>),
    /// A collection whose merges aren't worked out.
    Merging(Rc<Draft>),
}
