// The command `normalize`.
ghost use Rattle.std.specs.Prelude.{Ok, Err};
ghost use Rattle.rvs_base.specs.Sink.{SinkState};
ghost use Rattle.rvs_base.specs.Answers.{seen};
ghost use Rattle.rvs_plan.specs.World.{World, world};
ghost use Rattle.rvs_plan.specs.Plan.{Ends};
ghost use Rattle.rvs_plan.specs.Meets.{Meets};
ghost use Rattle.rvs_tree.specs.TreeView.{view};
ghost use Rattle.rvs_cgf.specs.Groups.{groups_of};
ghost use Rattle.rvs_cgf.specs.Print.{normal_text};
ghost use Rattle.rvs_inputs.specs.GroupFiles.{checked_groups, groups_found};
ghost use Rattle.rvs_plain.specs.Normalize.{normal_files, normal_inputs, normalize};

use rvs_abstract::Families;
use rvs_base::{Bytes, Host, Items, Sink, Text};
use rvs_cgf::write_groups;
use rvs_inputs::{GROUPS_NAME, print_text, read_isa, read_joined, tree_in};
use rvs_insn::IsaSpec;
use rvs_plan::{Finish, Stop, accepted};
use rvs_tree::Tree;
use rvs_words::NormalizeArguments;
use std::alloc::Global;

/// Reads coverage group files for the core of an ISA file, and puts the groups with all points
/// written out.
///
/// # Errors
///
/// [`Stop`]; nothing is put before all files are accepted.
pub fn normalize_files<H: Host, O: Sink>(
    alloc: Global,
    asked: &NormalizeArguments,
    host: &mut H,
    out: &mut O,
) -> Result<Finish, Stop>
    ensures { Meets (normalize asked.now) (world (H.state host.old) (O.state out.old))
        (world (H.state host.new) (O.state out.new)) result }
{
    let text = read_normal(alloc, host, asked)?;
    print_text(&text, out)
}

/// The normal text of the groups of the named files, for the core of an ISA file.
fn read_normal<H: Host>(
    alloc: Global,
    host: &mut H,
    asked: &NormalizeArguments,
) -> Result<Text, Stop>
    ensures { (out : SinkState) → Meets (normal_inputs asked.now)
        (world (H.state host.old) out) (world (H.state host.new) out) result }
{
    let said = read_isa(alloc, host, &asked.isa)?;
    read_normal_files(alloc, host, &said.spec, asked.families, &asked.groups)
}

/// The normal text of the groups of the named files, for a core.
fn read_normal_files<H: Host>(
    alloc: Global,
    host: &mut H,
    isa: &IsaSpec,
    families: Families,
    names: &Items<Text>,
) -> Result<Text, Stop>
    ensures { (out : SinkState) → Meets (normal_files isa.now families names.now)
        (world (H.state host.old) out) (world (H.state host.new) out) result }
{
    let text = read_joined(alloc, host, names.as_slice())?;
    write_text(alloc, isa, families, text)
}

/// The normal text of a text's groups. The text is let go before it is made.
fn write_text(alloc: Global, isa: &IsaSpec, families: Families, text: Bytes) -> Result<Text, Stop>
    ensures { (w : World) → Meets (Ends (seen normal_text (groups_found isa.now families text)))
        w w result }
{
    let tree = tree_in(alloc, GROUPS_NAME, text.as_slice())?;
    drop(text);
    write_tree(alloc, isa, families, &tree)
}

fn write_tree(alloc: Global, isa: &IsaSpec, families: Families, tree: &Tree) -> Result<Text, Stop>
    ensures { (w : World) → Meets
        (Ends (seen normal_text (checked_groups (groups_of isa.now families (view tree.now)))))
        w w result }
{
    accepted(alloc, GROUPS_NAME, write_groups(alloc, tree, isa, families))
}
