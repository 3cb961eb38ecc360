// Reading a file of YAML.
ghost use Rattle.std.specs.Prelude.{◌<◌, ◌^◌};
ghost use Rattle.rvs_base.specs.Sink.{SinkState};
ghost use Rattle.rvs_base.specs.Answers.{seen};
ghost use Rattle.rvs_tree.specs.TreeView.{view};
ghost use Rattle.rvs_plan.specs.World.{World, world};
ghost use Rattle.rvs_plan.specs.Plan.{Ends};
ghost use Rattle.rvs_plan.specs.Meets.{Meets};
ghost use Rattle.rvs_inputs.specs.TreeInput.{tree_in, tree_file};

use rvs_base::Host;
use rvs_plan::{Stop, accepted, read_input};
use rvs_tree::Tree;
use rvs_yaml::parse;
use std::alloc::Global;

/// Reads a file and gives its tree. The text is let go before.
///
/// # Errors
///
/// [`Stop`]: the file isn't there, can't be read, has more than `limit` bytes, or has no tree.
pub fn read_tree<H: Host>(alloc: Global, host: &mut H, name: &str, limit: u64) -> Result<Tree, Stop>
    requires { limit < 2 ^ 63 }
    ensures { (out : SinkState) → Meets (tree_file limit name.now) (world (H.state host.old) out)
        (world (H.state host.new) out) (seen view result) }
{
    let bytes = read_input(alloc, host, name, limit)?;
    tree_in(alloc, name, bytes.as_slice())
}

/// The tree of a text, which a line for errors names so.
///
/// # Errors
///
/// [`Stop::Refused`] where it has none; [`Stop::NoMemory`].
pub fn tree_in(alloc: Global, name: &str, bytes: &[u8]) -> Result<Tree, Stop>
    ensures { (w : World) → Meets (Ends (tree_in name.now bytes.now)) w w (seen view result) }
{
    accepted(alloc, name, parse(alloc, bytes))
}
