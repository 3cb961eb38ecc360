// Collections that are merged, before their own merges are worked out.
use crate::tree::Tree;
use std::alloc::{AllocError, Global};
use std::rc::Rc;

/// A map or a list that is merged into a map, as it is written.
#[cycle(draft)]
pub struct Draft {
    parts: Vec<Part>,
    is_list: bool,
    line: u64,
}

/// An entry of a map, or what a key that merges brings, or an item of a list.
#[derive(Drop)]
#[cycle(draft)]
pub enum Part {
    /// An entry with a key of its own.
    Pair(String, Rc<Tree>),
    /// A whole tree.
    Whole(Rc<Tree>),
    /// A collection whose merges aren't worked out.
    Nested(Rc<Draft>),
}

impl Draft {
    ghost use Rattle.std.specs.Prelude.{◌≡◌, ℕ, true, false, IfOk};
    ghost use Rattle.rvs_tree.specs.Data.{sequence, items_of, is_list, line_of};
    ghost use Rattle.rvs_tree.specs.Value.{merged_pairs, pairs_in};
    ghost use Rattle.rvs_tree.specs.DraftView.{draft_view, data_of, merged_trees};
    ghost use Rattle.rvs_tree.specs.PartsView.{parts_view, sizes, draft_size};

    /// A map of these entries, which begins on this line.
    pub(crate) fn new_map(
        alloc: Global,
        parts: Vec<Part>,
        line: u64,
    ) -> Result<Rc<Draft>, AllocError>
        ensures { IfOk result (λ d. draft_view d.value ≡ data_of (parts_view parts.items) line) }
    {
        Draft::shared(alloc, parts, false, line)
    }

    /// A list of these items, which begins on this line.
    pub(crate) fn new_list(
        alloc: Global,
        parts: Vec<Part>,
        line: u64,
    ) -> Result<Rc<Draft>, AllocError>
        ensures { IfOk result (λ d. draft_view d.value
            ≡ sequence (items_of (merged_trees (parts_view parts.items))) line) }
    {
        Draft::shared(alloc, parts, true, line)
    }

    fn shared(
        alloc: Global,
        parts: Vec<Part>,
        is_list: bool,
        line: u64,
    ) -> Result<Rc<Draft>, AllocError>
        ensures { IfOk result
            (λ d. (d.value.parts ≡ parts) × (d.value.is_list ≡ is_list) × (d.value.line ≡ line)) }
    {
        Ok(Rc::new(
            alloc,
            Draft {
                parts,
                is_list,
                line,
            },
        )?)
    }

    /// The line on which it begins.
    pub(crate) fn line(&self) -> u64
        ensures { result ≡ line_of (draft_view self.now) }
    {
        self.line
    }

    /// Whether it is a list.
    pub(crate) fn is_list(&self) -> bool
        ensures { result ≡ is_list (draft_view self.now) }
    {
        self.is_list
    }

    /// The entries or the items.
    pub(crate) fn parts(&self) -> &[Part]
        ensures map { is_list (draft_view self.now) ≡ false
            → (l : ℕ) × (draft_view self.now ≡ data_of (parts_view result.now) l) }
        ensures list { is_list (draft_view self.now) ≡ true
            → merged_pairs (draft_view self.now) ≡ pairs_in (merged_trees (parts_view result.now)) }
        ensures items { is_list (draft_view self.now) ≡ true → (l : ℕ)
            × (draft_view self.now ≡ sequence (items_of (merged_trees (parts_view result.now))) l) }
        ensures size { draft_size self.now ≡ sizes result.now }
    {
        self.parts.as_slice()
    }
}

impl Drop for Draft {
    #[cycle(draft_drops)]
    fn drop(self) {
        drop_parts(self.into_parts());
    }
}

impl Draft {
    ghost use Rattle.std.specs.Prelude.{◌≡◌, ◌<◌};
    ghost use Rattle.rvs_tree.specs.PartsView.{sizes, draft_size, deepest_part};
    ghost use Rattle.rvs_tree.specs.declared.draft.Draft.{size-Draft};

    /// The entries or the items.
    fn into_parts(self) -> Vec<Part>
        ensures size { draft_size self ≡ sizes result.items }
        ensures deep { deepest_part result.items < size-Draft self }
    {
        let Draft {
            parts,
            is_list: _,
            line: _,
        } = self;
        parts
    }
}

impl Part {
    ghost use Rattle.std.specs.Prelude.{◌<◌, IfSome};
    ghost use Rattle.rvs_tree.specs.PartsView.{sizes, part_size, deepest_part};
    ghost use Rattle.rvs_tree.specs.declared.draft.Part.{size-Part};

    /// What is in a draft that nothing else holds. Another part is let go.
    fn into_below(self) -> Option<Vec<Part>>
        ensures positive { 0 < part_size self }
        ensures size { IfSome result (λ v. sizes v.items < part_size self) }
        ensures deep { IfSome result (λ v. deepest_part v.items < size-Part self) }
    {
        match self {
            Part::Pair(key, tree) => {
                drop(key);
                drop(tree);
                None
            }
            Part::Whole(tree) => {
                drop(tree);
                None
            }
            Part::Nested(draft) => match Rc::into_inner(draft) {
                Some(draft) => Some(draft.into_parts()),
                None => None,
            },
        }
    }
}

/// Drops these parts one after another, with what is in them, in a stack that doesn't grow with
/// how deep they are.
#[cycle(draft_drops)]
fn drop_parts(mut work: Vec<Part>) {
    while let Some(part) = work.pop() {
        if let Some(mut parts) = part.into_below() {
            let _ = work.append(&mut parts);
        }
    }
}
