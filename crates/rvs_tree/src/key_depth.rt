// How deep the value at a key is.
ghost use Rattle.std.specs.Prelude.{◌≤◌};

/// A key, and how deep its value is, from 33 on counted as 33.
#[derive(Drop)]
pub struct KeyDepth {
    /// The key.
    pub key: String,
    /// The depth of the value.
    pub depth: u64,
    ghost shallow: { depth ≤ 33 },
}
