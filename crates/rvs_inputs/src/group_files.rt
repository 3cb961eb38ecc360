// Reading coverage group files.
ghost use Rattle.std.specs.Prelude.{◌≡◌, All, Option, IfOk};
ghost use Rattle.rvs_base.specs.Sink.{SinkState};
ghost use Rattle.rvs_base.specs.Answers.{seen};
ghost use Rattle.rvs_plan.specs.World.{World, world};
ghost use Rattle.rvs_plan.specs.Plan.{Ends};
ghost use Rattle.rvs_plan.specs.Meets.{Meets};
ghost use Rattle.rvs_cgf.specs.GroupView.{label_view};
ghost use Rattle.rvs_points.specs.Valid.{IsValidIfSelected};
ghost use Rattle.rvs_inputs.specs.GroupsView.{groups_view, inputs_view};
ghost use Rattle.rvs_inputs.specs.GroupFiles.{joined, joins, joins_all, room, within_limit};
ghost use Rattle.rvs_inputs.specs.GroupFiles.{group_files, group_inputs};

use crate::isa_file::read_isa;
use crate::tree_file::tree_in;
use rvs_abstract::Families;
use rvs_base::{Bytes, Host, Items, NoMemory, Text, release};
use rvs_cgf::{Groups, read_groups};
use rvs_insn::IsaSpec;
use rvs_plan::{Stop, accepted, read_part, too_long};
use std::alloc::Global;

/// The greatest length in bytes of all group files together, with the line feeds between them:
/// 4 MiB.
pub const GROUPS_LIMIT: u64 = 4_194_304;

/// What the joined group files are called in a line for errors.
pub const GROUPS_NAME: &str = "coverage files";

/// A core, and coverage groups that were read for it.
#[derive(Drop)]
pub struct Inputs {
    pub isa: IsaSpec,
    pub groups: Groups,
}

/// Lets inputs go. Who reads them does so by this call: how each part of them is let go would be
/// proved once more in a crate that let them go itself.
pub fn release_inputs(inputs: Inputs) {
    release(inputs)
}

/// Reads an ISA file, and then coverage group files for its core, by the families that are read.
///
/// # Errors
///
/// [`Stop`]: a file isn't there, can't be read, or isn't accepted.
pub fn read_inputs<H: Host>(
    alloc: Global,
    host: &mut H,
    isa: &Text,
    families: Families,
    names: &Items<Text>,
) -> Result<Inputs, Stop>
    ensures met { (out : SinkState) → Meets (group_inputs isa.now families names.now)
        (world (H.state host.old) out) (world (H.state host.new) out) (seen inputs_view result) }
    ensures valid { IfOk result (λ i. All (λ l. IsValidIfSelected i.isa (label_view l)) i.groups) }
{
    let said = read_isa(alloc, host, isa)?;
    let isa = said.spec;
    let groups = read_group_files(alloc, host, &isa, families, names)?;
    Ok(Inputs { isa, groups })
}

/// Reads the named group files, joins them in order with a line feed between, and reads the groups
/// of that text for a core. The text is let go before they are made.
///
/// # Errors
///
/// [`Stop`]: a file isn't there or can't be read, all of them are longer than [`GROUPS_LIMIT`], the
/// text has no tree, or the tree breaks a rule of coverage groups.
fn read_group_files<H: Host>(
    alloc: Global,
    host: &mut H,
    isa: &IsaSpec,
    families: Families,
    names: &Items<Text>,
) -> Result<Groups, Stop>
    ensures met { (out : SinkState) → Meets (group_files isa.now families names.now)
        (world (H.state host.old) out) (world (H.state host.new) out) (seen groups_view result) }
    ensures valid { IfOk result (All (λ l. IsValidIfSelected isa.now (label_view l))) }
{
    let text = read_joined(alloc, host, names.as_slice())?;
    let tree = tree_in(alloc, GROUPS_NAME, text.as_slice())?;
    drop(text);
    accepted(alloc, GROUPS_NAME, read_groups(alloc, &tree, isa, families))
}

/// The text of the named files, joined in order with a line feed between.
///
/// # Errors
///
/// [`Stop`]: a file isn't there or can't be read, or all of them are longer than [`GROUPS_LIMIT`].
pub fn read_joined<H: Host>(alloc: Global, host: &mut H, names: &[Text]) -> Result<Bytes, Stop>
    ensures { (out : SinkState) → Meets (joins_all Option.None names.now)
        (world (H.state host.old) out) (world (H.state host.new) out) result }
{
    let mut front = None;
    for name in names {
        front = Some(join_file(alloc, host, front, name.as_str())?);
    }
    match front {
        Some(text) => Ok(text),
        None => Ok(Items::new(alloc)),
    }
}

/// The files so far, with the named one behind a line feed.
fn join_file<H: Host>(
    alloc: Global,
    host: &mut H,
    front: Option<Bytes>,
    name: &str,
) -> Result<Bytes, Stop>
    ensures { (out : SinkState) → Meets (joins front name.now) (world (H.state host.old) out)
        (world (H.state host.new) out) result }
{
    let limit = room(&front);
    let bytes = read_part(alloc, host, name, limit, GROUPS_NAME, GROUPS_LIMIT)?;
    let text = joined(front, bytes)?;
    within_limit(alloc, text)
}

/// What the files so far leave of the limit.
fn room(front: &Option<Bytes>) -> u64
    ensures { result ≡ room front.now }
{
    match front {
        None => GROUPS_LIMIT,
        Some(text) => GROUPS_LIMIT.saturating_sub(text.as_slice().len() as u64 + 1),
    }
}

fn joined(front: Option<Bytes>, bytes: Bytes) -> Result<Bytes, NoMemory>
    ensures { IfOk result (λ text. text ≡ joined front bytes) }
{
    match front {
        None => Ok(bytes),
        Some(text) => {
            let mut text = text.into_vec();
            text.push(b'\n')?;
            text.extend_from_slice(bytes.as_slice())?;
            Ok(Items::from(text))
        },
    }
}

fn within_limit(alloc: Global, text: Bytes) -> Result<Bytes, Stop>
    ensures { (w : World) → Meets (Ends (within_limit text)) w w result }
{
    if text.as_slice().len() as u64 > GROUPS_LIMIT {
        Err(Stop::Refused(too_long(alloc, GROUPS_NAME, GROUPS_LIMIT)?))
    } else {
        Ok(text)
    }
}
