// Counting in a log that is there whole.
ghost use Rattle.std.specs.Prelude.{◌≡◌, ◌≤◌, [], IfOk, List, length, map};
ghost use Rattle.rvs_log.specs.Entries.{entries_of};
ghost use Rattle.rvs_index.specs.Counting.{aims_in, count, kept};
ghost use Rattle.rvs_index.specs.State.{state_of};
ghost use Rattle.rvs_log.specs.Lines.{log_limit};
ghost use Rattle.rvs_points.specs.declared.group.Label.{Label};
ghost use Rattle.rvs_base.specs.declared.asked.Window.{Window};

use crate::counter::{Counter, new_counter};
use rvs_base::{Items, NoMemory, Window, release};
use rvs_points::Groups;
use std::alloc::Global;

/// How often each point was hit, and how many instructions there were.
#[derive(Drop)]
pub struct Counted {
    pub counts: Items<u64>,
    pub instructions: u64,
}

/// Counts in a log that is there whole, of at most 2^40 bytes.
///
/// # Errors
///
/// [`NoMemory`].
pub fn count_log(
    alloc: Global,
    groups: &Groups,
    windows: Items<Window>,
    log: &[u8],
) -> Result<Counted, NoMemory>
    requires { length log.now ≤ log_limit }
    ensures counts { IfOk result (λ c. c.counts
        ≡ map (count (kept windows (entries_of log.now))) (aims_in groups.now)) }
    ensures instructions { IfOk result (λ c. c.instructions
        ≡ length (kept windows (entries_of log.now))) }
{
    let mut counter = new_counter(alloc, groups, windows)?;
    let counted = count_whole(alloc, &mut counter, log);
    release(counter);
    counted
}

/// The same with a counter that was fed nothing.
fn count_whole(alloc: Global, counter: &mut Counter<'_>, log: &[u8]) -> Result<Counted, NoMemory>
    requires new { counter.old.fed ≡ 0 }
    requires short { length log.now ≤ log_limit }
    ensures counts { (labels : List Label) (windows : List Window)
        → counter.old ≡ state_of labels windows [] 0
        → IfOk result (λ c. c.counts
        ≡ map (count (kept windows (entries_of log.now))) (aims_in labels)) }
    ensures instructions { (labels : List Label) (windows : List Window)
        → counter.old ≡ state_of labels windows [] 0
        → IfOk result (λ c. c.instructions ≡ length (kept windows (entries_of log.now))) }
{
    counter.read_whole(log);
    let tally = counter.told();
    let counts = Vec::from_slice(alloc, tally.counts())?;
    Ok(Counted {
        counts: Items::from(counts),
        instructions: tally.instructions(),
    })
}
