// The last thing that most commands do.
ghost use Rattle.rvs_base.specs.Host.{HostState};
ghost use Rattle.rvs_plan.specs.World.{world};
ghost use Rattle.rvs_plan.specs.Meets.{Meets};
ghost use Rattle.rvs_inputs.specs.Printing.{print_text};

use rvs_base::{Sink, Text};
use rvs_plan::{Finish, Stop, print};

/// Puts a text, after which all is done.
///
/// # Errors
///
/// [`Stop::SinkFault`].
pub fn print_text<O: Sink>(text: &Text, out: &mut O) -> Result<Finish, Stop>
    ensures { (host : HostState) → Meets (print_text text.now)
        (world host (O.state out.old)) (world host (O.state out.new)) result }
{
    print(out, text.as_str().as_bytes())?;
    Ok(Finish::Done)
}
