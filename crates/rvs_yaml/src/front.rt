// The limits on the tree of the lines so far.
ghost use Rattle.std.specs.Prelude.{◌≡◌, ◌≤◌, ◌∷◌, ◌++◌, ◌+◌, ◌&&◌, [], ℕ, List, min, nat_lt};
ghost use Rattle.std.specs.Prelude.{Ok, IfOk, IfErr, IsOk};
ghost use Rattle.rvs_tree.specs.Data as data_spec;
ghost use Rattle.rvs_tree.specs.Value as value_spec;
ghost use Rattle.rvs_yaml.specs.StepParts as parts;
ghost use Rattle.rvs_tree.specs.Bound.{brought};
ghost use Rattle.rvs_yaml.specs.Entry.{written};
ghost use Rattle.rvs_tree.specs.Standin.{standin};
ghost use Rattle.rvs_yaml.specs.Stack.{done_entries};
ghost use Rattle.rvs_yaml.specs.Parsed.{within_limits};
ghost use Rattle.rvs_yaml.specs.Front as spec;
ghost use Rattle.rvs_yaml.specs.Reach.{KeepsDepth};
ghost use Rattle.rvs_yaml.specs.Gives.{Decides, Gives, FailsWith};
ghost use Rattle.rvs_base.specs.declared.fault.Fault.TheVariants.{NoMemory};
ghost use Rattle.rvs_yaml.specs.Sketched.{IsSketch, Brings, SketchedAs};
ghost use Rattle.rvs_yaml.specs.StackView.{done_view, open_view, stack_view};
ghost use Rattle.rvs_tree.specs.ValueView.{value_view, values_view, entries_view, written_view};
ghost use Rattle.rvs_yaml_text.specs.KeyView.{key_view};

use crate::arrivals::Arrivals;
use crate::open::{Block, Done, Open};
use crate::reach::may_be_deep;
use crate::reading::Pending;
use crate::sketch::Sketch;
use crate::stack::closed_value;
use crate::taking::boxed;
use rvs_base::{Fault, beside, release};
use rvs_tree::{
    DEEP, EntryList, Value, ValueList, Written, depth_up_to, into_tree, plus, scalar_value,
    shared_value, text_nodes,
};
use rvs_yaml_text::{Key, YamlKind};
use std::alloc::{AllocError, Global};

/// The greatest depth that is accepted.
pub(crate) const MOST_DEPTH: u64 = 32;

/// The greatest number of nodes that is accepted.
pub(crate) const MOST_NODES: u64 = 500_000;

/// What is known of a value, or of one for which it stands, that is at most so deep, without
/// looking through it.
pub(crate) fn sketch_of(value: &Value, deepest: u64) -> Sketch
    requires { deepest ≤ 33 }
    ensures own { min (data_spec.depth (value_view value.now).tree) 33 ≤ deepest
        → IsSketch (value_view value.now) result }
    ensures thin { (v : value_spec.Value) → value_view value.now ≡ standin v
        → min (data_spec.depth v.tree) 33 ≤ deepest → IsSketch v result }
{
    Sketch {
        depth: deepest,
        least: 1,
        nodes: value.nodes,
        is_map: value.is_map_or_empty(),
        mergeable: value.mergeable,
    }
}

/// What is known of an empty scalar.
fn empty_sketch() -> Sketch
    ensures { (line : ℕ) → IsSketch (value_spec.scalar_value [] line) result }
{
    Sketch {
        depth: 1,
        least: 1,
        nodes: 1,
        is_map: true,
        mergeable: true,
    }
}

/// Whether both are true.
fn both(left: bool, right: bool) -> bool
    ensures { result ≡ (left && right) }
{
    left && right
}

/// What is known of a list with one item more.
fn list_sketch(list: &ValueList, last: &Sketch) -> Sketch
    ensures { (line : ℕ) → (v : value_spec.Value) → IsSketch v last.now → IsSketch
        (value_spec.list_value line (values_view list.now.values.items ++ v ∷ [])) result }
{
    Sketch {
        depth: (list.depth.max(last.depth) + 1).min(DEEP),
        least: (last.least + 1).min(DEEP),
        nodes: plus(list.nodes, last.nodes),
        is_map: false,
        mergeable: both(list.all_maps, last.is_map),
    }
}

/// A bound on the depth of what the open entry brings into its map. A map that is merged brings its
/// values, and a list of maps theirs.
fn brought_depth(key: &Key, last: &Sketch) -> u64
    ensures bound { (taken : List (List ℕ)) → (v : value_spec.Value) → IsSketch v last.now
        → min (brought taken key.now.merges v.tree) 33 ≤ result }
    ensures shallow { result ≤ 33 }
{
    if !key.merges || last.depth >= DEEP {
        return last.depth;
    }
    let hidden = if last.is_map { 1 } else { 2 };
    last.depth.saturating_sub(hidden)
}

/// What is known of a map with its open entry, which brings values of at most this depth.
fn entry_sketch(
    entries: &EntryList,
    key: &Key,
    last: &Sketch,
    deepest: u64,
) -> Result<Sketch, YamlKind>
    requires { deepest ≤ 33 }
    ensures { (line : ℕ) → (v : value_spec.Value) → IsSketch v last.now → Brings entries.now
        (key_view key.now) v deepest → SketchedAs result (parts.closed_value
        (done_entries (entries_view entries.now.entries.items) (key_view key.now)) line v) }
{
    let least = if key.merges {
        if !last.mergeable {
            return Err(YamlKind::BadMerge);
        }
        // Of what is merged nothing need be left.
        1
    } else {
        (last.least + 1).min(DEEP)
    };
    let name_nodes = text_nodes(key.name.as_str());
    Ok(Sketch {
        depth: (entries.depth.max(deepest) + 1).min(DEEP),
        least,
        nodes: plus(plus(entries.nodes, name_nodes), last.nodes),
        is_map: true,
        mergeable: true,
    })
}

/// What is known of a block with its open member.
fn closed_sketch(block: &Block, last: Sketch) -> Result<Sketch, YamlKind>
    ensures { (v : value_spec.Value) → IsSketch v last
        → SketchedAs result (parts.closed_value (done_view block.now.done) block.now.line v) }
{
    match &block.done {
        Done::Items(list) => Ok(list_sketch(list, &last)),
        Done::Entries(pending) => {
            let Pending { list, key } = &**pending;
            entry_sketch(list, key, &last, brought_depth(key, &last))
        }
        Done::Alone => Ok(last),
    }
}

/// What is known of a block whose open member is this value.
fn leaf_sketch(block: &Block, own: &Value) -> Result<Sketch, YamlKind>
    ensures { SketchedAs result
        (parts.closed_value (done_view block.now.done) block.now.line (value_view own.now)) }
{
    match &block.done {
        Done::Entries(pending) => {
            let Pending { list, key } = &**pending;
            let deepest = list.brought(key.merges, own);
            entry_sketch(list, key, &sketch_of(own, own.depth), deepest)
        }
        _ => closed_sketch(block, sketch_of(own, own.depth)),
    }
}

/// What is known of the block on top with its last word. What that merges is whole, so only what
/// the keys leave visible counts.
fn top_sketch(top: &Open<'_>) -> Result<Sketch, YamlKind>
    ensures { SketchedAs result (parts.closed_value (done_view top.now.block.done)
        top.now.block.line (spec.own_value (open_view top.now))) }
{
    if top.head.sort.opens_block() {
        return closed_sketch(&top.block, empty_sketch());
    }
    match &top.own {
        Some(own) => leaf_sketch(&top.block, own),
        None => closed_sketch(&top.block, empty_sketch()),
    }
}

/// What is known of the tree of the lines so far.
fn sketch_front(blocks: &[Open<'_>]) -> Result<Sketch, YamlKind>
    ensures { SketchedAs result (spec.front_value (stack_view blocks.now)) }
{
    let Some(top) = blocks.last() else {
        return Ok(empty_sketch());
    };
    let first = top_sketch(top)?;
    sketch_with(&blocks[..blocks.len() - 1], first)
}

/// What is known of the tree of the lines so far, where this is known of the last word.
pub(crate) fn sketch_with(blocks: &[Open<'_>], own: Sketch) -> Result<Sketch, YamlKind>
    ensures { (v : value_spec.Value) → IsSketch v own
        → SketchedAs result (spec.ends v (stack_view blocks.now)) }
{
    let mut sketch = own;
    let mut i = blocks.len();
    while i > 0 {
        i -= 1;
        sketch = closed_sketch(&blocks[i].block, sketch)?;
    }
    Ok(sketch)
}

/// The value of the last word of a block with nothing below it.
fn own_value(alloc: Global, top: &Open<'_>) -> Result<Value, AllocError>
    ensures { IfOk result (λ v. value_view v ≡ spec.own_value (open_view top.now)) }
{
    match &top.own {
        Some(value) if !top.head.sort.opens_block() => shared_value(value),
        _ => scalar_value(alloc, String::new(alloc), top.head.line),
    }
}

/// The same values.
fn copied_values(alloc: Global, values: &[Value]) -> Result<ValueList, AllocError>
    ensures { IfOk result (λ l. values_view l.values.items ≡ values_view values.now) }
{
    let mut list = ValueList::new(alloc);
    for value in values {
        list = list.with(alloc, shared_value(value)?)?;
    }
    Ok(list)
}

/// The same entry.
fn copied_written(alloc: Global, written: &Written) -> Result<Written, AllocError>
    ensures { IfOk result (λ w. written_view w ≡ written_view written.now) }
{
    Ok(Written {
        key: String::from_str(alloc, written.key.as_str())?,
        merges: written.merges,
        value: shared_value(&written.value)?,
    })
}

/// The same entries.
fn copied_entries(alloc: Global, entries: &[Written]) -> Result<EntryList, AllocError>
    ensures { IfOk result (λ l. entries_view l.entries.items ≡ entries_view entries.now) }
{
    let mut list = EntryList::new(alloc);
    for written in entries {
        list = list.with(alloc, copied_written(alloc, written)?)?;
    }
    Ok(list)
}

/// The same members.
fn copied_done(alloc: Global, done: &Done) -> Result<Done, AllocError>
    ensures { IfOk result (λ d. done_view d ≡ done_view done.now) }
{
    match done {
        Done::Items(list) => Ok(Done::Items(copied_values(alloc, list.values.as_slice())?)),
        Done::Entries(pending) => {
            let Pending { list, key } = &**pending;
            let name = String::from_str(alloc, key.name.as_str())?;
            let (list, name) = beside(copied_entries(alloc, list.entries.as_slice()), name)?;
            let merges = key.merges;
            let key = Key { name, merges };
            Ok(Done::Entries(boxed(alloc, Pending { list, key })?))
        }
        Done::Alone => Ok(Done::Alone),
    }
}

/// The value of the lines so far.
fn front_value(alloc: Global, blocks: &[Open<'_>]) -> Result<Value, Fault<YamlKind>>
    ensures { Gives value_view result (spec.front_value (stack_view blocks.now)) }
{
    let Some(top) = blocks.last() else {
        return Ok(scalar_value(alloc, String::new(alloc), 1)?);
    };
    let mut value = own_value(alloc, top)?;
    let mut i = blocks.len();
    while i > 0 {
        i -= 1;
        let block = &blocks[i].block;
        match copied_done(alloc, &block.done) {
            Ok(done) => value = closed_value(alloc, block.line, done, value)?,
            Err(_) => {
                release(value);
                return Err(Fault::NoMemory);
            }
        }
    }
    Ok(value)
}

/// Whether the tree of the lines so far, of which this is known, is too deep. Before the last line
/// it was no deeper than it may be, so it is looked through only where what that line has brought
/// could be too deep. What is known tells it mostly, and then no memory is taken.
fn is_too_deep(
    alloc: Global,
    blocks: &[Open<'_>],
    arrivals: &[Arrivals],
    sketch: &Sketch,
) -> Result<bool, Fault<YamlKind>>
    requires { KeepsDepth (stack_view blocks.now) }
    ensures told { (v : value_spec.Value) → spec.front_value (stack_view blocks.now) ≡ Ok v
        → IsSketch v sketch.now → IfOk result (λ b. b ≡ nat_lt 32 (data_spec.depth v.tree)) }
    ensures memory { (v : value_spec.Value) → spec.front_value (stack_view blocks.now) ≡ Ok v
        → IfErr result (λ fault. fault ≡ NoMemory) }
    ensures shallow { sketch.now.depth ≤ 32 → IsOk result }
    ensures deep { 33 ≤ sketch.now.least → IsOk result }
{
    if sketch.least > MOST_DEPTH {
        return Ok(true);
    }
    if sketch.depth <= MOST_DEPTH || !may_be_deep(alloc, blocks, arrivals)? {
        return Ok(false);
    }
    let tree = into_tree(alloc, front_value(alloc, blocks)?)?;
    Ok(depth_up_to(&tree, DEEP) > MOST_DEPTH)
}

/// Refuses a tree that is too deep, or has too many nodes.
fn check_limits(deep: bool, nodes: u64) -> Result<(), Fault<YamlKind>>
    ensures { Decides (λ u. u) result (spec.limited deep nodes) }
{
    if deep {
        return Err(Fault::Refused(YamlKind::TooDeep));
    }
    if nodes > MOST_NODES {
        Err(Fault::Refused(YamlKind::TooManyNodes))
    } else {
        Ok(())
    }
}

/// Whether the tree of the lines so far, of which this is known, keeps the limits. Memory may run
/// out only where what is known doesn't tell whether it is too deep.
fn check_sketched(
    alloc: Global,
    blocks: &[Open<'_>],
    arrivals: &[Arrivals],
    sketch: &Sketch,
) -> Result<(), Fault<YamlKind>>
    requires { KeepsDepth (stack_view blocks.now) }
    ensures given { (v : value_spec.Value) → spec.front_value (stack_view blocks.now) ≡ Ok v
        → IsSketch v sketch.now → Gives (λ u. u) result (within_limits v) }
    ensures shallow { (v : value_spec.Value) → spec.front_value (stack_view blocks.now) ≡ Ok v
        → IsSketch v sketch.now → sketch.now.depth ≤ 32
        → Decides (λ u. u) result (within_limits v) }
    ensures deep { (v : value_spec.Value) → spec.front_value (stack_view blocks.now) ≡ Ok v
        → IsSketch v sketch.now → 33 ≤ sketch.now.least
        → Decides (λ u. u) result (within_limits v) }
{
    let deep = is_too_deep(alloc, blocks, arrivals, sketch)?;
    check_limits(deep, sketch.nodes)
}

/// Whether the tree of the lines so far keeps the limits.
pub(crate) fn check_front(
    alloc: Global,
    blocks: &[Open<'_>],
    arrivals: &[Arrivals],
) -> Result<(), Fault<YamlKind>>
    requires { KeepsDepth (stack_view blocks.now) }
    ensures given { Gives (λ u. u) result (spec.checked_front (stack_view blocks.now)) }
    ensures merged { FailsWith result (spec.front_value (stack_view blocks.now)) }
{
    let sketch = sketch_front(blocks)?;
    check_sketched(alloc, blocks, arrivals, &sketch)
}
