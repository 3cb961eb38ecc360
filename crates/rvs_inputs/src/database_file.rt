// Reading a database of tests.
ghost use Rattle.rvs_base.specs.Sink.{SinkState};
ghost use Rattle.rvs_plan.specs.World.{world};
ghost use Rattle.rvs_plan.specs.Meets.{Meets};
ghost use Rattle.rvs_inputs.specs.DatabaseInput.{database_file};

use crate::tree_file::read_tree;
use rvs_base::{Host, Text};
use rvs_insn::IsaSpec;
use rvs_plan::{Stop, accepted};
use rvs_select::{Database, read_database};
use std::alloc::Global;

/// The greatest length of a database in bytes: 4 MiB.
const DATABASE_LIMIT: u64 = 4_194_304;

/// Reads a database of tests, and checks it for a core.
///
/// # Errors
///
/// [`Stop`]: the file isn't there, can't be read, has more than 4,194,304 bytes, has no tree, or
/// breaks a rule of databases.
pub fn read_database_file<H: Host>(
    alloc: Global,
    host: &mut H,
    isa: &IsaSpec,
    name: &Text,
) -> Result<Database, Stop>
    ensures { (out : SinkState) → Meets (database_file isa.now name.now)
        (world (H.state host.old) out) (world (H.state host.new) out) result }
{
    let name = name.as_str();
    let tree = read_tree(alloc, host, name, DATABASE_LIMIT)?;
    accepted(alloc, name, read_database(alloc, &tree, isa))
}
