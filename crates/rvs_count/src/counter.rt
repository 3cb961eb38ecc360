// Counting while a log comes.
ghost use Rattle.std.specs.Prelude.{◌≡◌, [], IfOk};
ghost use Rattle.rvs_index.specs.State.{state_of};

use crate::tally::Tally;
use rvs_base::{Items, NoMemory, Window};
use rvs_log::Reader;
use rvs_points::Groups;
use std::alloc::Global;

/// The counts of points over a log that comes in pieces. It borrows the groups, and keeps no line
/// but the one that is cut.
pub type Counter<'g> = Reader<Tally<'g>>;

/// A counter that was fed nothing.
///
/// # Errors
///
/// [`NoMemory`].
pub fn new_counter<'g>(
    alloc: Global,
    groups: &'g Groups,
    windows: Items<Window>,
) -> Result<Counter<'g>, NoMemory>
    ensures { IfOk result (λ c. c ≡ state_of groups.now windows [] 0) }
{
    Ok(Reader::new(Tally::new(alloc, groups, windows)?))
}
