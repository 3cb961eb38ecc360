// Working out merges, with a list of what is to be done.
ghost use Rattle.std.specs.Prelude.{◌≡◌, false, ◌≤◌, ◌<◌, ◌+◌, ◌∷◌, ◌++◌, ◌&&◌, [], IfOk, OnOk};
ghost use Rattle.rvs_tree.specs.Data.{is_list, is_map, own_pairs};
ghost use Rattle.rvs_tree.specs.Value.{resolved, explicit_keys};
ghost use Rattle.rvs_tree.specs.Sifted as sifted;
ghost use Rattle.rvs_tree.specs.Parts as parts_spec;
ghost use Rattle.rvs_tree.specs.DraftView.{part_view, draft_view, merging_entry};
ghost use Rattle.rvs_tree.specs.PairsView.{pairs_view};
ghost use Rattle.rvs_tree.specs.GatheredView.{taken_view};
ghost use Rattle.rvs_tree.specs.PartsView.{parts_view, refs_view, next_view, brings, part_size};
ghost use Rattle.rvs_tree.specs.PartsView.{draft_size, sizes, ref_sizes};

use crate::draft::{Draft, Part};
use crate::gathering::Gathered;
use crate::letting::{beside, pushed};
use crate::pairs::Pairs;
use crate::taken::Taken;
use std::alloc::{AllocError, Global};
use std::rc::Rc;

/// The keys that are taken and the entries that are kept, with one entry more: it is kept unless
/// its own key is taken, and then its key is taken.
fn keep_one<'a>(
    alloc: Global,
    taken: Taken,
    kept: Vec<&'a Part>,
    part: &'a Part,
) -> Result<(Vec<&'a Part>, Taken), AllocError>
    ensures taken { IfOk result
        (λ r. taken_view r.1 ≡ parts_spec.takes (taken_view taken) (part_view part.now ∷ [])) }
    ensures kept { IfOk result (λ r. refs_view r.0.items ≡ refs_view kept.entry.items
        ++ sifted.kept (taken_view taken) (part_view part.now ∷ [])) }
    ensures small { IfOk result
        (λ r. ref_sizes r.0.items ≤ ref_sizes kept.entry.items + part_size part.now) }
{
    match part {
        Part::Pair(key, _) => {
            if taken.has(key.as_str()) {
                return Ok((kept, taken));
            }
            let (taken, kept) = beside(taken.with(alloc, key.as_str()), kept)?;
            pushed(kept, part, taken)
        }
        Part::Whole(_) => pushed(kept, part, taken),
        Part::Nested(_) => pushed(kept, part, taken),
    }
}

/// The keys that are taken with those of these entries, and the entries that are kept.
fn keep<'a>(
    alloc: Global,
    taken: Taken,
    parts: &'a [Part],
) -> Result<(Vec<&'a Part>, Taken), AllocError>
    ensures taken { IfOk result
        (λ r. taken_view r.1 ≡ parts_spec.takes (taken_view taken) (parts_view parts.now)) }
    ensures kept { IfOk result
        (λ r. refs_view r.0.items ≡ sifted.kept (taken_view taken) (parts_view parts.now)) }
    ensures small { IfOk result (λ r. ref_sizes r.0.items ≤ sizes parts.now) }
{
    let mut taken = taken;
    let mut kept = Vec::new(alloc);
    for part in parts {
        (kept, taken) = keep_one(alloc, taken, kept, part)?;
    }
    Ok((kept, taken))
}

/// Whether what merges here is a map.
fn is_map_part(part: &Part) -> bool
    ensures { result ≡ ((part_view part.now).merges && is_map (part_view part.now).value.tree) }
{
    match part {
        Part::Pair(_, _) => false,
        Part::Whole(tree) => tree.is_map(),
        Part::Nested(draft) => !draft.is_list(),
    }
}

/// These and a part that is a map.
fn with_map_part<'a>(mut maps: Vec<&'a Part>, part: &'a Part) -> Result<Vec<&'a Part>, AllocError>
    ensures maps { IfOk result (λ v. refs_view v.items ≡ refs_view maps.entry.items
        ++ parts_spec.map_entries (part_view part.now ∷ [])) }
    ensures small { IfOk result
        (λ v. ref_sizes v.items ≤ ref_sizes maps.entry.items + part_size part.now) }
{
    if !is_map_part(part) {
        return Ok(maps);
    }
    maps.push(part)?;
    Ok(maps)
}

/// The maps among these items.
fn maps_in<'a>(alloc: Global, parts: &'a [Part]) -> Result<Vec<&'a Part>, AllocError>
    ensures maps { IfOk result
        (λ v. refs_view v.items ≡ parts_spec.map_entries (parts_view parts.now)) }
    ensures small { IfOk result (λ v. ref_sizes v.items ≤ sizes parts.now) }
{
    let mut maps = Vec::new(alloc);
    for part in parts {
        maps = with_map_part(maps, part)?;
    }
    Ok(maps)
}

/// Puts these before what is to be done, and gives the other value back.
fn stack<'a, T: Drop>(
    work: &mut Vec<&'a Part>,
    mut first: Vec<&'a Part>,
    other: T,
) -> Result<T, AllocError>
    ensures next { OnOk result
        (next_view work.new.items ≡ refs_view first.entry.items ++ next_view work.old.items) }
    ensures small { OnOk result
        (ref_sizes work.new.items ≡ ref_sizes work.old.items + ref_sizes first.entry.items) }
    ensures other { IfOk result (λ v. v ≡ other) }
{
    while let Some(part) = first.pop() {
        work.push(part)?;
    }
    Ok(other)
}

/// Puts the entries of a draft in its place.
fn entered<'a>(
    alloc: Global,
    gathered: Gathered,
    work: &mut Vec<&'a Part>,
    draft: &'a Draft,
) -> Result<Gathered, AllocError>
    ensures brought { IfOk result (λ g. brings g (next_view work.new.items)
        ≡ brings gathered (merging_entry (draft_view draft.now) ∷ next_view work.old.items)) }
    ensures small { OnOk result
        (ref_sizes work.new.items ≤ ref_sizes work.old.items + draft_size draft.now) }
{
    if draft.is_list() {
        let (maps, gathered) = beside(maps_in(alloc, draft.parts()), gathered)?;
        return stack(work, maps, gathered);
    }
    let Gathered { pairs, taken } = gathered;
    let ((kept, taken), pairs) = beside(keep(alloc, taken, draft.parts()), pairs)?;
    stack(work, kept, Gathered { pairs, taken })
}

/// Does the next of what is to be done.
fn done<'a>(
    alloc: Global,
    gathered: Gathered,
    work: &mut Vec<&'a Part>,
    part: &'a Part,
) -> Result<Gathered, AllocError>
    ensures brought { IfOk result (λ g. brings g (next_view work.new.items)
        ≡ brings gathered (part_view part.now ∷ next_view work.old.items)) }
    ensures small { OnOk result
        (ref_sizes work.new.items < ref_sizes work.old.items + part_size part.now) }
{
    match part {
        Part::Pair(key, tree) => gathered.with_own(alloc, key.as_str(), tree),
        Part::Whole(tree) => gathered.with_merged(alloc, tree),
        Part::Nested(draft) => entered(alloc, gathered, work, draft),
    }
}

/// Brings all that is to be done.
pub(crate) fn spread(
    alloc: Global,
    gathered: Gathered,
    work: Vec<&Part>,
) -> Result<Gathered, AllocError>
    ensures { IfOk result (λ g. pairs_view g.pairs ≡ brings gathered (next_view work.entry.items)) }
{
    let mut gathered = gathered;
    let mut work = work;
    while let Some(part) = work.pop() {
        gathered = done(alloc, gathered, &mut work, part)?;
    }
    Ok(gathered)
}

/// All these, the first on top.
fn all_of<'a>(alloc: Global, parts: &'a [Part]) -> Result<Vec<&'a Part>, AllocError>
    ensures { IfOk result (λ v. next_view v.items ≡ parts_view parts.now) }
{
    let mut work = Vec::new(alloc);
    let mut left = parts.len();
    while left > 0 {
        left -= 1;
        work.push(&parts[left])?;
    }
    Ok(work)
}

/// The pairs of a map of these entries, with all that they merge.
pub(crate) fn resolved_parts(alloc: Global, parts: &[Part]) -> Result<Pairs, AllocError>
    ensures { IfOk result (λ p. pairs_view p
        ≡ resolved (explicit_keys (parts_view parts.now)) [] (parts_view parts.now)) }
{
    let (kept, taken) = keep(alloc, Taken::new(alloc), parts)?;
    drop(kept);
    let (work, taken) = beside(all_of(alloc, parts), taken)?;
    let gathered = Gathered {
        pairs: Pairs::new(alloc),
        taken,
    };
    let Gathered { pairs, taken } = spread(alloc, gathered, work)?;
    drop(taken);
    Ok(pairs)
}

/// The pairs of a map's draft.
pub(crate) fn draft_pairs(alloc: Global, draft: &Draft) -> Result<Pairs, AllocError>
    requires { is_list (draft_view draft.now) ≡ false }
    ensures { IfOk result (λ p. pairs_view p ≡ own_pairs (draft_view draft.now)) }
{
    resolved_parts(alloc, draft.parts())
}
