// The command `validate`.
ghost use Rattle.rvs_base.specs.Host.{HostState};
ghost use Rattle.rvs_plan.specs.World.{world};
ghost use Rattle.rvs_plan.specs.Meets.{Meets};
ghost use Rattle.rvs_plain.specs.Validate.{print_said, validate};

use rvs_base::{Host, Sink};
use rvs_inputs::{print_text, read_isa};
use rvs_isa::{AcceptedSpec, print_checked};
use rvs_plan::{Finish, Stop};
use rvs_words::ValidateArguments;
use std::alloc::Global;

/// Checks an ISA file, and puts what it says of the core, and where text and data begin, where it
/// says that.
///
/// # Errors
///
/// [`Stop`]; nothing is put before the file is accepted.
pub fn validate_file<H: Host, O: Sink>(
    alloc: Global,
    asked: &ValidateArguments,
    host: &mut H,
    out: &mut O,
) -> Result<Finish, Stop>
    ensures { Meets (validate asked.now) (world (H.state host.old) (O.state out.old))
        (world (H.state host.new) (O.state out.new)) result }
{
    let said = read_isa(alloc, host, &asked.isa)?;
    print_said(alloc, &said, out)
}

fn print_said<O: Sink>(alloc: Global, said: &AcceptedSpec, out: &mut O) -> Result<Finish, Stop>
    ensures { (host : HostState) → Meets (print_said said.now) (world host (O.state out.old))
        (world host (O.state out.new)) result }
{
    let text = print_checked(alloc, said)?;
    print_text(&text, out)
}
