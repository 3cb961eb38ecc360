// Small values in the place of others: with their nodes, and with what can be merged of them.
ghost use Rattle.std.specs.Prelude.{◌≡◌, ◌≤◌, IfOk, if◌then◌else◌, ◌∷◌, []};
ghost use Rattle.rvs_tree.specs.Data.{sequence, no_items, mapping, no_entries, scalar};
ghost use Rattle.rvs_tree.specs.Standin.{thin, standin};
ghost use Rattle.rvs_tree.specs.TreeView.{view};
ghost use Rattle.rvs_tree.specs.Value as spec;
ghost use Rattle.rvs_tree.specs.ValueView.{value_view, values_view, entries_view};

use crate::counted::Value;
use crate::entry_list::EntryList;
use crate::held::Held;
use crate::members::DEEP;
use crate::tree::Tree;
use crate::value_list::ValueList;
use std::alloc::{AllocError, Global};
use std::rc::Rc;

/// The tree that stands for a list, all of whose items are maps or empty scalars, or not.
fn thin_list(alloc: Global, all_maps: bool, line: u64) -> Result<Rc<Tree>, AllocError>
    ensures { IfOk result (λ t. view t.value
        ≡ (if all_maps then sequence no_items line else scalar (120 ∷ []) line)) }
{
    if all_maps {
        Tree::new_list(alloc, Vec::new(alloc), line)
    } else {
        Tree::new_scalar(alloc, String::from_str(alloc, "x")?, line)
    }
}

/// A map without entries, which begins on this line.
fn thin_map(alloc: Global, line: u64) -> Result<Rc<Tree>, AllocError>
    ensures { IfOk result (λ t. view t.value ≡ mapping no_entries line) }
{
    Tree::new_map(alloc, Vec::new(alloc), Vec::new(alloc), line)
}

/// The tree that stands for this one, of which it is known whether it can be merged.
fn thin_whole(alloc: Global, tree: &Rc<Tree>, mergeable: bool) -> Result<Rc<Tree>, AllocError>
    requires { mergeable ≡ spec.is_mergeable (view tree.now.value) }
    ensures { IfOk result (λ t. view t.value ≡ thin (view tree.now.value)) }
{
    if tree.is_scalar() {
        return Ok(tree.clone()?);
    }
    if tree.is_map() {
        return thin_map(alloc, tree.line());
    }
    thin_list(alloc, mergeable, tree.line())
}

/// The tree that stands for that of a value.
fn thin_tree(alloc: Global, value: &Value) -> Result<Rc<Tree>, AllocError>
    ensures { IfOk result (λ t. view t.value ≡ thin (value_view value.now).tree) }
{
    match &value.held {
        Held::Whole(tree) => thin_whole(alloc, tree, value.mergeable),
        Held::Merging(draft) if draft.is_list() => {
            thin_list(alloc, value.mergeable, draft.line())
        }
        Held::Merging(draft) => thin_map(alloc, draft.line()),
    }
}

/// The value that stands for this one.
pub fn thin_value(alloc: Global, value: &Value) -> Result<Value, AllocError>
    ensures { IfOk result (λ v. value_view v ≡ standin (value_view value.now)) }
{
    let tree = thin_tree(alloc, value)?;
    Ok(Value {
        held: Held::Whole(tree),
        nodes: value.nodes,
        depth: value.depth,
        mergeable: value.mergeable,
        keys: None,
    })
}

/// The value that stands for the map of these entries, whose merges needn't be resolved for it.
pub fn thin_map_value(alloc: Global, line: u64, own: &EntryList) -> Result<Value, AllocError>
    ensures { IfOk result
        (λ v. value_view v ≡ standin (spec.map_value line (entries_view own.now.entries.items))) }
{
    let tree = thin_map(alloc, line)?;
    Ok(Value {
        held: Held::Whole(tree),
        nodes: own.nodes,
        depth: (own.depth + 1).min(DEEP),
        mergeable: true,
        keys: None,
    })
}

/// The value that stands for the list of these values.
pub fn thin_list_value(alloc: Global, line: u64, list: &ValueList) -> Result<Value, AllocError>
    ensures { IfOk result
        (λ v. value_view v ≡ standin (spec.list_value line (values_view list.now.values.items))) }
{
    let tree = thin_list(alloc, list.all_maps, line)?;
    Ok(Value {
        held: Held::Whole(tree),
        nodes: list.nodes,
        depth: (list.depth + 1).min(DEEP),
        mergeable: list.all_maps,
        keys: None,
    })
}
