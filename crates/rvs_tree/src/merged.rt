// The entries of a map, with what is merged into it.
ghost use Rattle.std.specs.Prelude.{◌≡◌, ◌+◌, ◌∷◌, ◌++◌, ◌||◌, [], ℕ, List, true, map, min};
ghost use Rattle.std.specs.Prelude.{IfOk, IfSome};
ghost use Rattle.rvs_tree.specs.Value as spec;
ghost use Rattle.rvs_tree.specs.OwnKeys.{OwnKeysStay};
ghost use Rattle.rvs_tree.specs.TreeView.{view, rc_view};
ghost use Rattle.rvs_tree.specs.ValueView.{value_view, values_view, written_view, entries_view};
ghost use Rattle.rvs_tree.specs.PairsView.{pairs_view};
ghost use Rattle.rvs_tree.specs.HeldView.{held_view, is_whole};

use crate::counted::Value;
use crate::entry_list::EntryList;
use crate::held::Held;
use crate::members::DEEP;
use crate::merge_keys::brought_keys;
use crate::pairs::Pairs;
use crate::parts::{list_draft, map_draft};
use crate::tree::Tree;
use crate::value_list::ValueList;
use crate::whole::tree_of;
use crate::written::Written;
use std::alloc::{AllocError, Global};
use std::rc::Rc;

impl Pairs {
    pub(crate) fn new(alloc: Global) -> Pairs
        ensures { pairs_view result ≡ [] }
    {
        Pairs {
            keys: Vec::new(alloc),
            values: Vec::new(alloc),
        }
    }

    /// These pairs and one more.
    pub(crate) fn with(self, alloc: Global, key: &str, tree: &Rc<Tree>) -> Result<Pairs, AllocError>
        ensures { IfOk result
            (λ p. pairs_view p ≡ pairs_view self ++ (key.now, view tree.now.value) ∷ []) }
    {
        let Pairs {
            mut keys,
            mut values,
        } = self;
        let key = String::from_str(alloc, key)?;
        let tree = tree.clone()?;
        keys.push(key)?;
        values.push(tree)?;
        Ok(Pairs { keys, values })
    }

    /// These pairs and an entry of a map. There are none where it merges.
    fn with_unmerged(self, alloc: Global, written: &Written) -> Result<Option<Pairs>, AllocError>
        ensures { IfOk result (λ o. IfSome o (λ p. (taken : List (List ℕ)) → pairs_view p
            ≡ spec.resolved taken (pairs_view self) (written_view written.now ∷ []))) }
    {
        if written.merges {
            return Ok(None);
        }
        let tree = tree_of(alloc, &written.value)?;
        Ok(Some(self.with(alloc, written.key.as_str(), &tree)?))
    }
}

/// The pairs of a map of these entries, where none of them merges.
fn unmerged_pairs(alloc: Global, entries: &[Written]) -> Result<Option<Pairs>, AllocError>
    ensures { IfOk result (λ o. IfSome o (λ p. pairs_view p ≡ spec.resolved
        (spec.explicit_keys (entries_view entries.now)) [] (entries_view entries.now))) }
{
    let mut pairs = Pairs::new(alloc);
    for written in entries {
        pairs = match pairs.with_unmerged(alloc, written)? {
            None => return Ok(None),
            Some(pairs) => pairs,
        };
    }
    Ok(Some(pairs))
}

/// The tree of these entries, which begins on this line, where none of them merges.
fn unmerged_tree(
    alloc: Global,
    line: u64,
    entries: &[Written],
) -> Result<Option<Rc<Tree>>, AllocError>
    ensures { IfOk result (λ o. IfSome o
        (λ t. view t.value ≡ (spec.map_value line (entries_view entries.now)).tree)) }
{
    match unmerged_pairs(alloc, entries)? {
        None => Ok(None),
        Some(pairs) => {
            let Pairs { keys, values } = pairs;
            Ok(Some(Tree::new_map(alloc, keys, values, line)?))
        }
    }
}

/// What a map of these entries is held as, which begins on this line. Where it merges, its merges
/// are worked out with those of the map that takes it.
fn held_map(alloc: Global, line: u64, own: &EntryList) -> Result<Held, AllocError>
    ensures { IfOk result
        (λ h. held_view h ≡ (spec.map_value line (entries_view own.now.entries.items)).tree) }
{
    let entries = own.entries.as_slice();
    // Where keys are known that it merges, an entry merges.
    if own.merged.is_none() {
        if let Some(tree) = unmerged_tree(alloc, line, entries)? {
            return Ok(Held::Whole(tree));
        }
    }
    Ok(Held::Merging(map_draft(alloc, line, entries)?))
}

/// The map of these entries, which begins on this line.
pub fn map_value(alloc: Global, line: u64, own: EntryList) -> Result<Value, AllocError>
    ensures value { IfOk result
        (λ v. value_view v ≡ spec.map_value line (entries_view own.entries.items)) }
    ensures depth { IfOk result (λ v. v.depth ≡ min (own.depth + 1) 33) }
{
    let held = held_map(alloc, line, &own)?;
    let EntryList {
        entries,
        keys,
        nodes,
        depth,
        merged,
    } = own;
    drop(entries);
    let keys = brought_keys(alloc, keys, merged)?;
    Ok(Value {
        held,
        nodes,
        depth: (depth + 1).min(DEEP),
        mergeable: true,
        keys,
    })
}

/// The trees of these values, shared.
fn shared_trees(alloc: Global, values: &[Value]) -> Result<Vec<Rc<Tree>>, AllocError>
    ensures { IfOk result (λ v. map rc_view v.items ≡ spec.trees (values_view values.now)) }
{
    let mut trees = Vec::with_capacity(alloc, values.len())?;
    for value in values {
        trees.push(tree_of(alloc, value)?)?;
    }
    Ok(trees)
}

/// What a list of these values is held as, which begins on this line. Where it can be merged, the
/// merges of its maps may wait for the map that takes it.
fn held_list(alloc: Global, line: u64, list: &ValueList) -> Result<Held, AllocError>
    ensures view { IfOk result
        (λ h. held_view h ≡ (spec.list_value line (values_view list.now.values.items)).tree) }
    ensures ready { IfOk result (λ h. (is_whole h || list.now.all_maps) ≡ true) }
{
    if list.merging && list.all_maps {
        return Ok(Held::Merging(list_draft(alloc, line, list.values.as_slice())?));
    }
    let trees = shared_trees(alloc, &list.values)?;
    Ok(Held::Whole(Tree::new_list(alloc, trees, line)?))
}

/// The list of these values, which begins on this line.
pub fn list_value(alloc: Global, line: u64, list: ValueList) -> Result<Value, AllocError>
    ensures value { IfOk result
        (λ v. value_view v ≡ spec.list_value line (values_view list.values.items)) }
    ensures depth { IfOk result (λ v. v.depth ≡ min (list.depth + 1) 33) }
{
    let held = held_list(alloc, line, &list)?;
    let ValueList {
        values,
        nodes,
        depth,
        all_maps,
        merging: _,
        keys,
    } = list;
    drop(values);
    Ok(Value {
        held,
        nodes,
        depth: (depth + 1).min(DEEP),
        mergeable: all_maps,
        keys,
    })
}

/// An explicit key keeps its value, whatever its map merges.
pub fn own_keys_stay()
    ensures { OwnKeysStay }
{}
