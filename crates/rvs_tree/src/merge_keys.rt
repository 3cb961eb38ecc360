// The keys that entries and items bring where they are merged.
ghost use Rattle.std.specs.Prelude.{◌≡◌, ℕ, List, map, true, ◌&&◌, ◌||◌, IfOk};
ghost use Rattle.std.specs.BTreeSet.{contains_text};
ghost use Rattle.rvs_tree.specs.Data.{own_pairs};
ghost use Rattle.rvs_tree.specs.Value.{has_key, keys_of, own_key, pairs_in, merged_pairs};
ghost use Rattle.rvs_tree.specs.MergedView.{merged_has};
ghost use Rattle.rvs_tree.specs.TreeView.{view, rc_view};
ghost use Rattle.rvs_tree.specs.ValueView.{value_view, written_view};

use crate::counted::Value;
use crate::keys::with_key;
use crate::letting::beside;
use crate::merged_keys::MergedKeys;
use crate::tree::Tree;
use crate::whole::tree_of;
use crate::written::Written;
use std::alloc::{AllocError, Global};
use std::collections::BTreeSet;
use std::rc::Rc;

/// These keys and those of a map.
fn with_map_keys(
    alloc: Global,
    set: BTreeSet<String>,
    tree: &Tree,
) -> Result<BTreeSet<String>, AllocError>
    ensures { IfOk result (λ s. (k : List ℕ) → contains_text s k
        ≡ (contains_text set k || has_key k (keys_of (own_pairs (view tree.now))))) }
{
    let (keys, values) = tree.entries();
    let mut set = set;
    for (i, key) in keys.iter().enumerate() {
        if i >= values.len() {
            return Ok(set);
        }
        set = with_key(alloc, set, key.as_str())?;
    }
    Ok(set)
}

/// These keys and those of maps.
fn with_maps_keys(
    alloc: Global,
    set: BTreeSet<String>,
    trees: &[Rc<Tree>],
) -> Result<BTreeSet<String>, AllocError>
    ensures { IfOk result (λ s. (k : List ℕ) → contains_text s k
        ≡ (contains_text set k || has_key k (keys_of (pairs_in (map rc_view trees.now))))) }
{
    let mut set = set;
    for tree in trees {
        set = with_map_keys(alloc, set, tree)?;
    }
    Ok(set)
}

/// The first keys and the others, which are let go.
fn with_all(into: BTreeSet<String>, from: BTreeSet<String>) -> Result<BTreeSet<String>, AllocError>
    ensures { IfOk result (λ s. (k : List ℕ) → contains_text s k ≡ true
        → (contains_text into k || contains_text from k) ≡ true) }
{
    let mut set = into;
    let mut from = from;
    while let Some(key) = from.pop_first() {
        set.insert(key)?;
    }
    Ok(set)
}

/// The keys of both. Those of the smaller set move, so a key moves few times.
fn joined(left: BTreeSet<String>, right: BTreeSet<String>) -> Result<BTreeSet<String>, AllocError>
    ensures { IfOk result (λ s. (k : List ℕ) → contains_text s k ≡ true
        → (contains_text left k || contains_text right k) ≡ true) }
{
    if left.len() < right.len() {
        with_all(right, left)
    } else {
        with_all(left, right)
    }
}

/// These keys and those that a value merges. Of a collection that isn't shared they are kept with
/// it.
fn with_value_keys(
    alloc: Global,
    set: BTreeSet<String>,
    value: &Value,
    keys: Option<Box<MergedKeys>>,
) -> Result<BTreeSet<String>, AllocError>
    requires { (k : List ℕ) → merged_has keys k ≡ true
        → has_key k (keys_of (merged_pairs (value_view value.now).tree)) ≡ true }
    ensures { IfOk result (λ s. (k : List ℕ) → contains_text s k ≡ true → (contains_text set k
        || has_key k (keys_of (merged_pairs (value_view value.now).tree))) ≡ true) }
{
    match keys {
        Some(keys) => {
            let MergedKeys { set: brought } = Box::into_inner(keys);
            joined(set, brought)
        }
        None => {
            let (tree, set) = beside(tree_of(alloc, value), set)?;
            if tree.is_list() {
                with_maps_keys(alloc, set, tree.items())
            } else {
                with_map_keys(alloc, set, &tree)
            }
        }
    }
}

/// The keys so far.
fn keys_so_far(alloc: Global, merged: Option<Box<MergedKeys>>) -> BTreeSet<String>
    ensures { (k : List ℕ) → contains_text result k ≡ merged_has merged k }
{
    match merged {
        Some(merged) => {
            let MergedKeys { set } = Box::into_inner(merged);
            set
        }
        None => BTreeSet::new(alloc),
    }
}

/// Keys that are kept.
fn kept(alloc: Global, set: BTreeSet<String>) -> Result<Option<Box<MergedKeys>>, AllocError>
    ensures { IfOk result (λ m. (k : List ℕ) → merged_has m k ≡ contains_text set k) }
{
    Ok(Some(Box::new(alloc, MergedKeys { set })?))
}

/// A value, and the keys that were kept with it.
pub(crate) fn apart(value: Value) -> (Value, Option<Box<MergedKeys>>)
    ensures view { value_view result.0 ≡ value_view value }
    ensures depth { result.0.depth ≡ value.depth }
    ensures held { result.0.held ≡ value.held }
    ensures brings { (k : List ℕ) → merged_has result.1 k ≡ true
        → has_key k (keys_of (merged_pairs (value_view value).tree)) ≡ true }
{
    let Value {
        held,
        nodes,
        depth,
        mergeable,
        keys,
    } = value;
    let value = Value {
        held,
        nodes,
        depth,
        mergeable,
        keys: None,
    };
    (value, keys)
}

/// An entry, and the keys that were kept with its value.
pub(crate) fn written_apart(written: Written) -> (Written, Option<Box<MergedKeys>>)
    ensures view { written_view result.0 ≡ written_view written }
    ensures depth { result.0.value.depth ≡ written.value.depth }
    ensures held { result.0.value.held ≡ written.value.held }
    ensures brings { (k : List ℕ) → merged_has result.1 k ≡ true
        → has_key k (keys_of (merged_pairs (value_view written.value).tree)) ≡ true }
{
    let Written { key, merges, value } = written;
    let (value, keys) = apart(value);
    (Written { key, merges, value }, keys)
}

/// These own keys and merged keys with those of an entry, which may be kept already.
pub(crate) fn with_keys(
    alloc: Global,
    own: BTreeSet<String>,
    merged: Option<Box<MergedKeys>>,
    written: &Written,
    keys: Option<Box<MergedKeys>>,
) -> Result<(BTreeSet<String>, Option<Box<MergedKeys>>), AllocError>
    requires { (k : List ℕ) → merged_has keys k ≡ true
        → has_key k (keys_of (merged_pairs (value_view written.now.value).tree)) ≡ true }
    ensures own { IfOk result (λ r. (k : List ℕ) → contains_text r.0 k
        ≡ (contains_text own k || has_key k (own_key (written_view written.now)))) }
    ensures merged { IfOk result (λ r. (k : List ℕ) → merged_has r.1 k ≡ true
        → (merged_has merged k || (written.now.merges
        && has_key k (keys_of (merged_pairs (value_view written.now.value).tree)))) ≡ true) }
{
    if !written.merges {
        drop(keys);
        return beside(with_key(alloc, own, written.key.as_str()), merged);
    }
    let set = with_value_keys(alloc, keys_so_far(alloc, merged), &written.value, keys);
    let (set, own) = beside(set, own)?;
    let (merged, own) = beside(kept(alloc, set), own)?;
    Ok((own, merged))
}

/// The keys of the maps of a list with those of one item more. Where an item is no map and isn't
/// empty, none are kept.
pub(crate) fn with_item_keys(
    alloc: Global,
    so_far: Option<Box<MergedKeys>>,
    all_maps: bool,
    value: &Value,
    keys: Option<Box<MergedKeys>>,
) -> Result<Option<Box<MergedKeys>>, AllocError>
    requires { (k : List ℕ) → merged_has keys k ≡ true
        → has_key k (keys_of (merged_pairs (value_view value.now).tree)) ≡ true }
    ensures { IfOk result (λ m. (k : List ℕ) → merged_has m k ≡ true → (merged_has so_far k
        || has_key k (keys_of (own_pairs (value_view value.now).tree))) ≡ true) }
{
    if !all_maps || !value.is_map_or_empty() {
        return Ok(None);
    }
    let set = with_value_keys(alloc, keys_so_far(alloc, so_far), value, keys)?;
    kept(alloc, set)
}

/// The keys of a map: those that it merges, and these of its own. Where there are none, no set is
/// kept.
pub(crate) fn brought_keys(
    alloc: Global,
    own: BTreeSet<String>,
    merged: Option<Box<MergedKeys>>,
) -> Result<Option<Box<MergedKeys>>, AllocError>
    ensures { IfOk result (λ m. (k : List ℕ) → merged_has m k ≡ true
        → (merged_has merged k || contains_text own k) ≡ true) }
{
    let set = joined(keys_so_far(alloc, merged), own)?;
    if set.is_empty() {
        return Ok(None);
    }
    kept(alloc, set)
}
