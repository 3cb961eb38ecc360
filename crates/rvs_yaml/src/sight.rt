// How deep what the last word has brought is, as far as the keys around it leave it.
ghost use Rattle.std.specs.Prelude.{◌≡◌, ◌≤◌, ◌<◌, [], ℕ, List, suc, min};
ghost use Rattle.std.specs.Prelude.{slice_index_or, length, take, IfOk};
ghost use Rattle.rvs_tree.specs.Shown as shown;
ghost use Rattle.rvs_tree.specs.ShownView.{depths_view};
ghost use Rattle.rvs_tree.specs.Value.{scalar_value};
ghost use Rattle.rvs_tree.specs.ValueView.{value_view, entries_view};
ghost use Rattle.rvs_yaml.specs.Around.{AreAround};
ghost use Rattle.rvs_yaml.specs.Chain.{in_chain, chain_keys};
ghost use Rattle.rvs_yaml.specs.Front.{own_value};
ghost use Rattle.rvs_yaml.specs.Reach as spec;
ghost use Rattle.rvs_yaml.specs.Seen.{Tells, TellsOf, TellsAt, Steps};
ghost use Rattle.rvs_yaml.specs.Stack.{done_entries};
ghost use Rattle.rvs_yaml.specs.StackView.{done_view, open_view, stack_view};
ghost use Rattle.rvs_yaml.specs.declared.open.Open as code;
ghost use Rattle.rvs_yaml_text.specs.KeyView.{key_view};

use crate::arrivals::Arrivals;
use crate::chain::{arrivals_at, is_taken_around, root_of};
use crate::open::{Done, Open};
use crate::reading::Pending;
use crate::seen::Seen;
use rvs_tree::{DEEP, KeyDepth, Value, brought_depths, deepest_of, depth_up_to, tree_of};
use std::alloc::{AllocError, Global};

/// What is new in an empty scalar.
fn empty_seen(alloc: Global) -> Seen
    ensures { (line : ℕ) → TellsOf result (scalar_value [] line) }
{
    Seen {
        depth: 1,
        deepest: 0,
        depths: Vec::new(alloc),
    }
}

/// What is new in a new value.
fn seen_of(alloc: Global, value: &Value) -> Result<Seen, AllocError>
    ensures { IfOk result (λ s. TellsOf s (value_view value.now)) }
{
    let depths = brought_depths(alloc, value)?;
    let tree = tree_of(alloc, value)?;
    let depth = depth_up_to(&tree, DEEP);
    let deepest = deepest_of(depths.as_slice());
    Ok(Seen {
        depth,
        deepest,
        depths,
    })
}

/// What is new in what a last word is by itself.
fn own_seen(alloc: Global, top: &Open<'_>) -> Result<Seen, AllocError>
    ensures { IfOk result (λ s. TellsOf s (own_value (open_view top.now))) }
{
    if top.head.sort.opens_block() {
        return Ok(empty_seen(alloc));
    }
    match &top.own {
        Some(own) => seen_of(alloc, own),
        None => Ok(empty_seen(alloc)),
    }
}

/// Those whose keys aren't known to be taken in the blocks from `first` to `end`.
fn untaken(
    alloc: Global,
    blocks: &[Open<'_>],
    first: usize,
    end: usize,
    arrivals: Option<&Arrivals>,
    depths: Vec<KeyDepth>,
) -> Result<Vec<KeyDepth>, AllocError>
    requires some { first < end }
    requires inside { end ≤ length blocks.now }
    requires around { AreAround blocks.now first end }
    ensures { IfOk result (λ l. (T : List (List ℕ)) →
        shown.Holds (chain_keys (stack_view (take end blocks.now))) T →
        shown.visible (depths_view depths.items) T ≤ shown.visible (depths_view l.items) T) }
{
    let mut kept = Vec::new(alloc);
    for pair in depths {
        if is_taken_around(blocks, first, end, arrivals, pair.key.as_str()) {
            continue;
        }
        kept.push(pair)?;
    }
    Ok(kept)
}

/// What is new in the open member of the last of these blocks, as far as the maps around it aren't
/// known to have its keys.
fn unseen(
    alloc: Global,
    blocks: &[Open<'_>],
    end: usize,
    arrivals: &[Arrivals],
    seen: Seen,
) -> Result<Seen, AllocError>
    requires { end ≤ length blocks.now }
    ensures { IfOk result (λ s. (f : shown.Shown) → (n : ℕ) → Tells seen f n
        → TellsAt (stack_view (take end blocks.now)) s f n) }
{
    let root = root_of(blocks, end);
    if root >= end {
        return Ok(seen);
    }
    let Seen {
        depth,
        deepest: _,
        depths,
    } = seen;
    let depths = untaken(
        alloc,
        blocks,
        root,
        end,
        arrivals_at(arrivals, root),
        depths,
    )?;
    let deepest = deepest_of(depths.as_slice());
    Ok(Seen {
        depth,
        deepest,
        depths,
    })
}

/// What is new in a map that has at this key a value of such a depth.
fn keyed(alloc: Global, key: &str, depth: u64) -> Result<Seen, AllocError>
    requires { depth ≤ 33 }
    ensures { IfOk result
        (λ s. (n : ℕ) → min n 33 ≤ depth → Tells s (shown.at_key key.now n) (suc n)) }
{
    let mut depths = Vec::new(alloc);
    let key = String::from_str(alloc, key)?;
    depths.push(KeyDepth { key, depth })?;
    Ok(Seen {
        depth: (depth + 1).min(DEEP),
        deepest: depth,
        depths,
    })
}

/// What is new in the map at this place, whose open entry has such a value.
fn entered(
    alloc: Global,
    blocks: &[Open<'_>],
    place: usize,
    arrivals: &[Arrivals],
    pending: &Pending,
    seen: Seen,
) -> Result<Seen, AllocError>
    requires { place ≤ length blocks.now }
    ensures { IfOk result (λ s. Steps
        (done_entries (entries_view pending.now.list.entries.items) (key_view pending.now.key))
        (in_chain (stack_view (take place blocks.now)))
        (chain_keys (stack_view (take place blocks.now))) seen s) }
{
    if pending.key.merges {
        return Ok(Seen {
            depth: (seen.deepest + 1).min(DEEP),
            deepest: seen.deepest,
            depths: seen.depths,
        });
    }
    let seen = keyed(alloc, pending.key.name.as_str(), seen.depth)?;
    unseen(alloc, blocks, place, arrivals, seen)
}

/// What is new in the block at this place, whose open member is such a value.
fn around(
    alloc: Global,
    blocks: &[Open<'_>],
    place: usize,
    arrivals: &[Arrivals],
    seen: Seen,
) -> Result<Seen, AllocError>
    requires { place < length blocks.now }
    ensures { IfOk result (λ s. (b : code.Open) → b ≡ slice_index_or blocks.now place b
        → Steps (done_view b.block.done) (in_chain (stack_view (take place blocks.now)))
        (chain_keys (stack_view (take place blocks.now))) seen s) }
{
    match &blocks[place].block.done {
        Done::Items(_) => Ok(Seen {
            depth: (seen.depth + 1).min(DEEP),
            deepest: seen.deepest,
            depths: seen.depths,
        }),
        Done::Entries(pending) => entered(alloc, blocks, place, arrivals, pending, seen),
        Done::Alone => Ok(seen),
    }
}

/// A bound on the depth of what the last word has brought, from 33 on counted as 33.
pub(crate) fn sight(
    alloc: Global,
    blocks: &[Open<'_>],
    arrivals: &[Arrivals],
) -> Result<u64, AllocError>
    ensures { IfOk result (λ n. min (spec.sight (stack_view blocks.now)) 33 ≤ n) }
{
    let Some(top) = blocks.last() else {
        return Ok(1);
    };
    let own = own_seen(alloc, top)?;
    let mut i = blocks.len();
    let mut seen = unseen(alloc, blocks, i, arrivals, own)?;
    while i > 0 {
        i -= 1;
        seen = around(alloc, blocks, i, arrivals, seen)?;
    }
    Ok(seen.depth)
}
