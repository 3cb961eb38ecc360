// Reading an ISA file.
ghost use Rattle.rvs_base.specs.Sink.{SinkState};
ghost use Rattle.rvs_plan.specs.World.{world};
ghost use Rattle.rvs_plan.specs.Meets.{Meets};
ghost use Rattle.rvs_inputs.specs.Specification.{specification};

use crate::tree_file::read_tree;
use rvs_base::{Host, Text};
use rvs_isa::{AcceptedSpec, check};
use rvs_plan::{Stop, accepted};
use std::alloc::Global;

/// The greatest length of an ISA file in bytes.
pub const ISA_LIMIT: u64 = 65_536;

/// Reads an ISA file and checks it.
///
/// # Errors
///
/// [`Stop`]: the file isn't there, can't be read, is longer than [`ISA_LIMIT`], has no tree, or
/// fails a check.
pub fn read_isa<H: Host>(alloc: Global, host: &mut H, name: &Text) -> Result<AcceptedSpec, Stop>
    ensures { (out : SinkState) → Meets (specification name.now) (world (H.state host.old) out)
        (world (H.state host.new) out) result }
{
    let name = name.as_str();
    let tree = read_tree(alloc, host, name, ISA_LIMIT)?;
    accepted(alloc, name, check(alloc, &tree))
}
