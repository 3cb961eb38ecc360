// Which keys are known to be taken in the maps around a value that merges.
ghost use Rattle.std.specs.Prelude.{◌≡◌, ◌≤◌, ◌<◌, true, false, length, take};
ghost use Rattle.rvs_tree.specs.Value.{has_key};
ghost use Rattle.rvs_yaml.specs.Chain as spec;
ghost use Rattle.rvs_yaml.specs.Around.{AreAround};
ghost use Rattle.rvs_yaml.specs.StackView.{done_view, stack_view};

use crate::arrivals::Arrivals;
use crate::open::{Done, Open};

/// The place of the outermost of the maps, one in another, into which what is in the last of these
/// blocks merges. Their number where there is none.
pub(crate) fn root_of(blocks: &[Open<'_>], end: usize) -> usize
    requires { end ≤ length blocks.now }
    ensures inside { result ≤ end }
    ensures around { AreAround blocks.now result end }
{
    let mut root = end;
    let mut i = end;
    while i > 0 {
        i -= 1;
        if let Done::Entries(pending) = &blocks[i].block.done {
            if !pending.key.merges {
                return root;
            }
            root = i;
        }
    }
    root
}

/// Whether the members that a block has so far are known to have this key.
fn is_taken_in(done: &Done, key: &str) -> bool
    ensures { result ≡ true → has_key key.now (spec.done_keys (done_view done.now)) ≡ true }
{
    match done {
        Done::Items(list) => list.is_taken(key),
        Done::Entries(pending) => pending.list.is_taken(key),
        Done::Alone => false,
    }
}

/// The place of the last of the blocks from `first` to `end` that began on this line or before.
fn place_at(blocks: &[Open<'_>], first: usize, end: usize, line: u64) -> usize
    requires some { first < end }
    requires inside { end ≤ length blocks.now }
    ensures above { first ≤ result }
    ensures below { result < end }
{
    let mut low = first;
    let mut high = end;
    while high - low > 1 {
        let middle = low + (high - low) / 2;
        if blocks[middle].block.line <= line {
            low = middle;
        } else {
            high = middle;
        }
    }
    low
}

/// Whether a key is known to be taken in one of the blocks from `first` to `end`: in the first, or
/// in the one in which it came below that, if it did.
pub(crate) fn is_taken_around(
    blocks: &[Open<'_>],
    first: usize,
    end: usize,
    arrivals: Option<&Arrivals>,
    key: &str,
) -> bool
    requires some { first < end }
    requires inside { end ≤ length blocks.now }
    requires around { AreAround blocks.now first end }
    ensures { result ≡ true
        → has_key key.now (spec.chain_keys (stack_view (take end blocks.now))) ≡ true }
{
    if is_taken_in(&blocks[first].block.done, key) {
        return true;
    }
    let Some(arrivals) = arrivals else {
        return false;
    };
    let Some(line) = arrivals.lines.get(key) else {
        return false;
    };
    let place = place_at(blocks, first, end, *line);
    is_taken_in(&blocks[place].block.done, key)
}

/// The keys that came below the map at this place.
pub(crate) fn arrivals_at(arrivals: &[Arrivals], place: usize) -> Option<&Arrivals> {
    let mut i = arrivals.len();
    while i > 0 {
        i -= 1;
        if arrivals[i].place == place {
            return Some(&arrivals[i]);
        }
        if arrivals[i].place < place {
            return None;
        }
    }
    None
}
