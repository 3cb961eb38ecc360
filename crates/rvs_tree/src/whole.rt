// Working out what is held.
ghost use Rattle.std.specs.Prelude.{◌≡◌, ◌∷◌, ◌++◌, ◌≤◌, [], true, false, map, IfOk};
ghost use Rattle.rvs_tree.specs.Data.{items_of, is_list, is_map};
ghost use Rattle.rvs_tree.specs.Value as spec;
ghost use Rattle.rvs_tree.specs.DraftView.{draft_view, part_view, merged_trees};
ghost use Rattle.rvs_tree.specs.PartsView.{parts_view};
ghost use Rattle.rvs_tree.specs.HeldView.{held_view, is_whole};
ghost use Rattle.rvs_tree.specs.TreeView.{view, rc_view};
ghost use Rattle.rvs_tree.specs.ValueView.{value_view};

use crate::counted::Value;
use crate::draft::{Draft, Part};
use crate::held::Held;
use crate::members::{DEEP, depth_up_to, is_map_or_empty};
use crate::pairs::Pairs;
use crate::spread::draft_pairs;
use crate::tree::Tree;
use std::alloc::{AllocError, Global};
use std::rc::Rc;

/// The tree of a map's draft.
fn map_of(alloc: Global, draft: &Draft) -> Result<Rc<Tree>, AllocError>
    requires { is_list (draft_view draft.now) ≡ false }
    ensures { IfOk result (λ t. view t.value ≡ draft_view draft.now) }
{
    let Pairs { keys, values } = draft_pairs(alloc, draft)?;
    Tree::new_map(alloc, keys, values, draft.line())
}

/// These trees and that of an item, which is a map or an empty scalar.
fn with_item(
    alloc: Global,
    mut items: Vec<Rc<Tree>>,
    part: &Part,
) -> Result<Vec<Rc<Tree>>, AllocError>
    requires { spec.are_maps_or_empty (items_of (merged_trees (part_view part.now ∷ []))) ≡ true }
    ensures { IfOk result (λ v. map rc_view v.items ≡ map rc_view items.items
        ++ merged_trees (part_view part.now ∷ [])) }
{
    match part {
        Part::Pair(_, _) => Ok(items),
        Part::Whole(tree) => {
            let tree = tree.clone()?;
            items.push(tree)?;
            Ok(items)
        }
        Part::Nested(draft) => {
            let tree = map_of(alloc, draft)?;
            items.push(tree)?;
            Ok(items)
        }
    }
}

/// The trees of these items, which are maps and empty scalars.
fn trees_of(alloc: Global, parts: &[Part]) -> Result<Vec<Rc<Tree>>, AllocError>
    requires { spec.are_maps_or_empty (items_of (merged_trees (parts_view parts.now))) ≡ true }
    ensures { IfOk result (λ v. map rc_view v.items ≡ merged_trees (parts_view parts.now)) }
{
    let mut items = Vec::with_capacity(alloc, parts.len())?;
    for part in parts {
        items = with_item(alloc, items, part)?;
    }
    Ok(items)
}

/// The tree of a draft that can be merged.
fn draft_tree(alloc: Global, draft: &Draft) -> Result<Rc<Tree>, AllocError>
    requires { spec.is_mergeable (draft_view draft.now) ≡ true }
    ensures { IfOk result (λ t. view t.value ≡ draft_view draft.now) }
{
    if draft.is_list() {
        let items = trees_of(alloc, draft.parts())?;
        Tree::new_list(alloc, items, draft.line())
    } else {
        map_of(alloc, draft)
    }
}

/// The tree of a value.
pub fn tree_of(alloc: Global, value: &Value) -> Result<Rc<Tree>, AllocError>
    ensures { IfOk result (λ t. view t.value ≡ (value_view value.now).tree) }
{
    match &value.held {
        Held::Whole(tree) => tree.clone(),
        Held::Merging(draft) => draft_tree(alloc, draft),
    }
}

/// The tree of a value, which isn't needed any more.
pub fn into_tree(alloc: Global, value: Value) -> Result<Rc<Tree>, AllocError>
    ensures { IfOk result (λ t. view t.value ≡ (value_view value).tree) }
{
    let Value {
        held,
        nodes: _,
        depth: _,
        mergeable: _,
        keys: _,
    } = value;
    match held {
        Held::Whole(tree) => Ok(tree),
        Held::Merging(draft) => draft_tree(alloc, &draft),
    }
}

/// The same value as a whole.
pub(crate) fn whole_value(alloc: Global, value: Value) -> Result<Value, AllocError>
    ensures value { IfOk result (λ v. value_view v ≡ value_view value) }
    ensures depth { IfOk result (λ v. v.depth ≤ value.depth) }
{
    if matches!(value.held, Held::Whole(_)) {
        return Ok(value);
    }
    let nodes = value.nodes;
    let mergeable = value.mergeable;
    let tree = into_tree(alloc, value)?;
    let depth = depth_up_to(&tree, DEEP);
    Ok(Value {
        held: Held::Whole(tree),
        nodes,
        depth,
        mergeable,
        keys: None,
    })
}

impl Held {
    /// Whether it is a map or an empty scalar.
    pub(crate) fn is_map_or_empty(&self) -> bool
        ensures { result ≡ spec.is_map_or_empty (held_view self.now) }
    {
        match self {
            Held::Whole(tree) => is_map_or_empty(tree),
            Held::Merging(draft) => !draft.is_list(),
        }
    }

    /// The same, shared.
    pub(crate) fn share(&self) -> Result<Held, AllocError>
        ensures view { IfOk result (λ h. held_view h ≡ held_view self.now) }
        ensures whole { IfOk result (λ h. is_whole h ≡ is_whole self.now) }
    {
        match self {
            Held::Whole(tree) => Ok(Held::Whole(tree.clone()?)),
            Held::Merging(draft) => Ok(Held::Merging(draft.clone()?)),
        }
    }
}

impl Value {
    /// Whether it is a map or an empty scalar.
    pub fn is_map_or_empty(&self) -> bool
        ensures { result ≡ spec.is_map_or_empty (value_view self.now).tree }
    {
        self.held.is_map_or_empty()
    }
}
