// Where keys came that are taken below a map that merges.
use std::collections::BTreeMap;

/// The keys that came below a map whose open entry merges, each with the line on which it came
/// first. The map is the block at this place, begins on this line, and has so many entries. They
/// say where to look a key up, and nothing rests on them.
#[derive(Drop)]
pub(crate) struct Arrivals {
    pub place: usize,
    pub line: u64,
    pub entries: usize,
    pub lines: BTreeMap<String, u64>,
}
