// What is known of a value without looking through it.
ghost use Rattle.std.specs.Prelude.{◌≤◌};

/// Bounds on its depth from above (33 for all from 33 on) and from below, how many nodes it counts
/// for, whether it is a map or empty, and whether a map may merge it.
#[derive(Drop)]
pub(crate) struct Sketch {
    pub depth: u64,
    pub least: u64,
    pub nodes: u64,
    pub is_map: bool,
    pub mergeable: bool,
    ghost shallow: { depth ≤ 33 },
    ghost counted: { least ≤ 33 },
}
