// Drafts from what is written.
ghost use Rattle.std.specs.Prelude.{◌≡◌, map, IfOk};
ghost use Rattle.rvs_tree.specs.Value as spec;
ghost use Rattle.rvs_tree.specs.DraftView.{part_view, merging_entry, draft_view};
ghost use Rattle.rvs_tree.specs.PartsView.{parts_view};
ghost use Rattle.rvs_tree.specs.Bare.{bare};
ghost use Rattle.rvs_tree.specs.HeldView.{held_view};
ghost use Rattle.rvs_tree.specs.ValueView.{value_view, values_view, written_view, entries_view};

use crate::counted::Value;
use crate::draft::{Draft, Part};
use crate::held::Held;
use crate::letting::beside;
use crate::whole::tree_of;
use crate::written::Written;
use std::alloc::{AllocError, Global};
use std::rc::Rc;

/// What a value brings where it is merged.
fn merged_part(value: &Value) -> Result<Part, AllocError>
    ensures { IfOk result (λ p. part_view p ≡ merging_entry (value_view value.now).tree) }
{
    match &value.held {
        Held::Whole(tree) => Ok(Part::Whole(tree.clone()?)),
        Held::Merging(draft) => Ok(Part::Nested(draft.clone()?)),
    }
}

/// An entry.
fn entry_part(alloc: Global, written: &Written) -> Result<Part, AllocError>
    ensures { IfOk result (λ p. part_view p ≡ bare (written_view written.now)) }
{
    if written.merges {
        return merged_part(&written.value);
    }
    let key = String::from_str(alloc, written.key.as_str())?;
    let (tree, key) = beside(tree_of(alloc, &written.value), key)?;
    Ok(Part::Pair(key, tree))
}

/// The draft of a map of these entries, which begins on this line.
pub(crate) fn map_draft(
    alloc: Global,
    line: u64,
    entries: &[Written],
) -> Result<Rc<Draft>, AllocError>
    ensures { IfOk result
        (λ d. draft_view d.value ≡ (spec.map_value line (entries_view entries.now)).tree) }
{
    let mut parts = Vec::with_capacity(alloc, entries.len())?;
    for written in entries {
        parts.push(entry_part(alloc, written)?)?;
    }
    Draft::new_map(alloc, parts, line)
}

/// The draft of a list of these values, which begins on this line.
pub(crate) fn list_draft(
    alloc: Global,
    line: u64,
    values: &[Value],
) -> Result<Rc<Draft>, AllocError>
    ensures { IfOk result
        (λ d. draft_view d.value ≡ (spec.list_value line (values_view values.now)).tree) }
{
    let mut parts = Vec::with_capacity(alloc, values.len())?;
    for value in values {
        parts.push(merged_part(value)?)?;
    }
    Draft::new_list(alloc, parts, line)
}
