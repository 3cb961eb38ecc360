// Keys that are merged.
use std::collections::BTreeSet;

/// Keys that maps have which are merged, as far as they are kept.
#[derive(Drop)]
pub struct MergedKeys {
    /// The keys.
    pub set: BTreeSet<String>,
}
