// Counting while a program runs.
ghost use Rattle.std.specs.Prelude.{◌≡◌, ◌≤◌, ◌+◌, ◌*◌, Some, []};
ghost use Rattle.rvs_machine.specs.Machine.{step_of};
ghost use Rattle.rvs_machine.specs.Run.{run_of};
ghost use Rattle.rvs_log.specs.Logs.{log_of};
ghost use Rattle.rvs_log.specs.Feeds.{Fed};
ghost use Rattle.rvs_index.specs.State.{with_reading};
ghost use Rattle.rvs_demo.specs.Counted.{executed_in, goes_on};
ghost use Rattle.rvs_log.specs.Lines.{log_limit};

use rvs_count::Counter;
use rvs_machine::{Event, Machine};

/// Makes a step, and counts what was executed; whether the run goes on.
fn count_step(machine: &mut Machine, counter: &mut Counter<'_>) -> bool
    requires begun { counter.old.waiting ≡ Some [] }
    requires few { counter.old.fed + 51 ≤ log_limit }
    ensures goes { result ≡ goes_on (step_of machine.old.setup machine.old.state).0 }
    ensures machine { machine.new
        ≡ record machine.old { state = (step_of machine.old.setup machine.old.state).1 } }
    ensures counted { Fed with_reading counter.old counter.new
        (log_of (executed_in (step_of machine.old.setup machine.old.state).0)) }
    ensures low { counter.new.fed ≤ counter.old.fed + 51 }
    ensures begun { counter.new.waiting ≡ Some [] }
{
    let (executed, goes_on) = match machine.step() {
        Event::Ran(executed) => (executed, true),
        Event::Halted(executed) => (executed, false),
        Event::Trapped(_) => return false,
    };
    counter.feed_executed(&executed);
    goes_on
}

/// Runs a machine for at most so many steps, and counts what is executed, as it comes, as its lines
/// in a log are counted. It takes no memory.
pub(crate) fn count_run(machine: &mut Machine, counter: &mut Counter<'_>, limit: u64)
    requires begun { counter.old.waiting ≡ Some [] }
    requires few { counter.old.fed + 51 * limit ≤ log_limit }
    ensures { Fed with_reading counter.old counter.new
        (log_of (run_of machine.old.setup limit machine.old.state).trace) }
{
    for _ in 0..limit {
        if !count_step(machine, counter) {
            return;
        }
    }
}
