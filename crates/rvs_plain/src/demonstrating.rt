// The command `demo`.
ghost use Rattle.rvs_base.specs.Host.{HostState};
ghost use Rattle.rvs_plan.specs.World.{world};
ghost use Rattle.rvs_plan.specs.Meets.{Meets};
ghost use Rattle.rvs_plain.specs.Demonstrate.{demonstrate};

use rvs_base::{DemoSize, Sink};
use rvs_demo::demo_text;
use rvs_inputs::print_text;
use rvs_plan::{Finish, Stop};
use std::alloc::Global;

/// Runs a generated program on the reference machine, counts its coverage as it runs, and puts the
/// report. It reads no file.
///
/// # Errors
///
/// [`Stop`]; nothing is put before the run has ended.
pub fn demonstrate<O: Sink>(alloc: Global, count: DemoSize, out: &mut O) -> Result<Finish, Stop>
    ensures { (host : HostState) → Meets (demonstrate count)
        (world host (O.state out.old)) (world host (O.state out.new)) result }
{
    let text = demo_text(alloc, count)?;
    print_text(&text, out)
}
