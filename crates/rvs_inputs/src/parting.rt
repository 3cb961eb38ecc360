// The labels of a part.
ghost use Rattle.std.specs.Prelude.{◌≡◌, ◌++◌, ◌∷◌, [], IfOk, OnOk, cond};
ghost use Rattle.rvs_base.specs.Sink.{SinkState};
ghost use Rattle.rvs_plan.specs.World.{world};
ghost use Rattle.rvs_plan.specs.Meets.{Meets};
ghost use Rattle.rvs_parts.specs.Parts.{is_in, parted};
ghost use Rattle.rvs_inputs.specs.DatabaseInput.{marked_file, marked, marked_one};

use crate::database_file::read_database_file;
use rvs_base::{Host, Items, NoMemory, Text};
use rvs_cgf::{Groups, Label};
use rvs_insn::IsaSpec;
use rvs_parts::Part;
use rvs_plan::Stop;
use rvs_select::{Database, Entry};
use std::alloc::Global;

/// The labels of a part.
#[tactic(auto, using(crate::proofs::PartsKept::parted_more))]
pub fn kept_labels(alloc: Global, groups: Groups, part: &Option<Part>) -> Result<Groups, NoMemory>
    ensures { IfOk result (λ kept. kept ≡ parted part.now groups) }
{
    let mut kept = Items::new(alloc);
    let mut place: usize = 0;
    for label in groups.into_vec() {
        let is = is_in(part, place);
        push_if(&mut kept, label, is)?;
        place += 1;
    }
    Ok(kept)
}

/// Whether what has this place is in a part, where one is asked for.
fn is_in(part: &Option<Part>, place: usize) -> bool
    ensures { result ≡ is_in part.now place }
{
    match part {
        None => true,
        Some(part) => part.has(place),
    }
}

fn push_if(kept: &mut Items<Label>, label: Label, is: bool) -> Result<(), NoMemory>
    ensures { OnOk result (kept.new ≡ kept.old ++ cond is (label ∷ []) []) }
{
    if is {
        kept.push(label)
    } else {
        drop(label);
        Ok(())
    }
}

/// Reads a database of tests, of which those outside a part, where one is asked for, aren't
/// selected.
///
/// # Errors
///
/// [`Stop`]: the file isn't there, can't be read, or isn't accepted.
pub fn read_marked<H: Host>(
    alloc: Global,
    host: &mut H,
    isa: &IsaSpec,
    name: &Text,
    part: &Option<Part>,
) -> Result<Database, Stop>
    ensures { (out : SinkState) → Meets (marked_file part.now isa.now name.now)
        (world (H.state host.old) out) (world (H.state host.new) out) result }
{
    let database = read_database_file(alloc, host, isa, name)?;
    Ok(marked(alloc, database, part)?)
}

/// The tests of a database, of which those outside a part aren't selected.
#[tactic(auto, using(crate::proofs::PartsKept::marked_more))]
fn marked(alloc: Global, database: Database, part: &Option<Part>) -> Result<Database, NoMemory>
    ensures { IfOk result (λ all. all ≡ marked part.now database) }
{
    let mut all = Items::new(alloc);
    let mut place: usize = 0;
    for entry in database.into_vec() {
        let is = is_in(part, place);
        push_marked(&mut all, entry, is)?;
        place += 1;
    }
    Ok(all)
}

fn push_marked(all: &mut Items<Entry>, entry: Entry, is: bool) -> Result<(), NoMemory>
    ensures { OnOk result (all.new ≡ all.old ++ marked_one is entry ∷ []) }
{
    let Entry { name, selected } = entry;
    all.push(Entry {
        name,
        selected: selected && is,
    })
}
