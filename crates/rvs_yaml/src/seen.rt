// How deep what is new in a value is.
ghost use Rattle.std.specs.Prelude.{◌≡◌, ◌≤◌, []};
ghost use Rattle.rvs_tree.specs.Shown.{visible};
ghost use Rattle.rvs_tree.specs.ShownView.{depths_view};

use rvs_tree::KeyDepth;

/// Bounds on how deep a value is with what is new in it, and on how deep the new values are that it
/// brings where it is merged, with the deepest of these. From 33 on depths are counted as 33.
#[derive(Drop)]
pub(crate) struct Seen {
    pub depth: u64,
    pub deepest: u64,
    pub depths: Vec<KeyDepth>,
    ghost shallow: { depth ≤ 33 },
    ghost few: { deepest ≤ 33 },
    ghost known: { deepest ≡ visible (depths_view depths.items) [] },
}
