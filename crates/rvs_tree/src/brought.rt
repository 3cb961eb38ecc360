// How deep the values are that a merged value brings.
ghost use Rattle.std.specs.Prelude.{◌≡◌, ◌≤◌, ◌∷◌, ◌++◌, [], ℕ, List, map, min, true};
ghost use Rattle.std.specs.Prelude.{string_bytes, IfOk};
ghost use Rattle.std.specs.List.{zip};
ghost use Rattle.rvs_tree.specs.Data.{depth};
ghost use Rattle.rvs_tree.specs.Value.{has_key, keys_of, pairs_in, trees};
ghost use Rattle.rvs_tree.specs.Shown as spec;
ghost use Rattle.rvs_tree.specs.GatheredView.{gathered_view};
ghost use Rattle.rvs_tree.specs.ShownView.{depths_view};
ghost use Rattle.rvs_tree.specs.TreeView.{view, rc_view};
ghost use Rattle.rvs_tree.specs.ValueView.{value_view, values_view, entries_view};

use crate::counted::Value;
use crate::entry_list::EntryList;
use crate::gathering::Gathered;
use crate::key_depth::KeyDepth;
use crate::members::{DEEP, depth_up_to};
use crate::pairs::Pairs;
use crate::taken::Taken;
use crate::tree::Tree;
use crate::value_list::ValueList;
use crate::whole::tree_of;
use std::alloc::{AllocError, Global};
use std::rc::Rc;

/// These and a key more, with how deep its value is.
fn with_depth(
    alloc: Global,
    mut depths: Vec<KeyDepth>,
    key: &str,
    tree: &Tree,
) -> Result<Vec<KeyDepth>, AllocError>
    ensures { IfOk result (λ l. depths_view l.items
        ≡ depths_view depths.items ++ (key.now, min (depth (view tree.now)) 33) ∷ []) }
{
    let depth = depth_up_to(tree, DEEP);
    let key = String::from_str(alloc, key)?;
    depths.push(KeyDepth { key, depth })?;
    Ok(depths)
}

/// The keys, and how deep their values are.
fn depths_of(
    alloc: Global,
    keys: &[String],
    values: &[Rc<Tree>],
) -> Result<Vec<KeyDepth>, AllocError>
    ensures { IfOk result (λ l. depths_view l.items
        ≡ spec.key_depths (zip (map string_bytes keys.now) (map rc_view values.now))) }
{
    let mut depths = Vec::new(alloc);
    for (i, key) in keys.iter().enumerate() {
        if i >= values.len() {
            return Ok(depths);
        }
        depths = with_depth(alloc, depths, key.as_str(), &values[i])?;
    }
    Ok(depths)
}

/// How deep the values are that this one brings where it is merged, the first of each key.
pub fn brought_depths(alloc: Global, value: &Value) -> Result<Vec<KeyDepth>, AllocError>
    ensures { IfOk result (λ l. (T : List (List ℕ)) →
        min (spec.shown_by (value_view value.now).tree T) 33
        ≤ spec.visible (depths_view l.items) T) }
{
    let tree = tree_of(alloc, value)?;
    let Gathered { pairs, taken: _ } = none_gathered(alloc).with_merged(alloc, &tree)?;
    depths_of(alloc, pairs.keys.as_slice(), pairs.values.as_slice())
}

/// How deep the deepest is.
pub fn deepest_of(depths: &[KeyDepth]) -> u64
    ensures deepest { result ≡ spec.visible (depths_view depths.now) [] }
    ensures shallow { result ≤ 33 }
{
    let mut deepest: u64 = 0;
    for pair in depths {
        deepest = deepest.max(pair.depth);
    }
    deepest
}

/// No pairs, and no keys that are taken.
fn none_gathered(alloc: Global) -> Gathered
    ensures { gathered_view result ≡ ([], []) }
{
    Gathered {
        pairs: Pairs::new(alloc),
        taken: Taken::new(alloc),
    }
}

impl ValueList {
    /// Whether a map of these values is known to have the key.
    pub fn is_taken(&self, key: &str) -> bool
        ensures { result ≡ true → has_key key.now
            (keys_of (pairs_in (trees (values_view self.now.values.items)))) ≡ true }
    {
        match &self.keys {
            Some(keys) => keys.set.contains(key),
            None => false,
        }
    }
}

impl EntryList {
    /// Whether these entries, or what they merge, are known to have the key.
    pub fn is_taken(&self, key: &str) -> bool
        ensures { result ≡ true
            → has_key key.now (spec.keys_so_far (entries_view self.now.entries.items)) ≡ true }
    {
        if self.has_key(key) {
            return true;
        }
        match &self.merged {
            Some(merged) => merged.set.contains(key),
            None => false,
        }
    }
}
