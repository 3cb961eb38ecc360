// The command `run` over a database.
ghost use Rattle.std.specs.Prelude.{◌≡◌, ◌++◌, IfOk, OnOk};
ghost use Rattle.rvs_plan.specs.World.{world, IsAnswer};
ghost use Rattle.rvs_plan.specs.Meets.{MeetsWith};
ghost use Rattle.rvs_generate.specs.Tests.{to_read};
ghost use Rattle.rvs_run.specs.RunDatabase.{chosen, chosen_one, run_database};

use crate::run::{bench_of, judge_tests};
use rvs_base::{Host, Items, NoMemory, Sink, beside, release};
use rvs_generate::{Given, Source};
use rvs_inputs::{read_device_file, read_isa, read_marked};
use rvs_plan::{Finish, Stop};
use rvs_select::Entry;
use rvs_words::{RunDatabaseArguments, owned};
use std::alloc::Global;

/// Reads a database of tests for the core of an ISA file, and a device file; runs each selected
/// test on the reference machine and on the device, and puts the verdict on the words that the
/// device leaves. A test's file is read when its turn comes.
///
/// # Errors
///
/// [`Stop`]; nothing is written and nothing is put before these files are accepted. A test that
/// isn't there, isn't accepted, traps or doesn't halt ends the work behind the verdicts before it.
pub fn run_selected<H: Host, O: Sink>(
    alloc: Global,
    asked: &RunDatabaseArguments,
    host: &mut H,
    out: &mut O,
) -> Result<Finish, Stop>
    ensures { MeetsWith IsAnswer (run_database asked.now)
        (world (H.state host.old) (O.state out.old))
        (world (H.state host.new) (O.state out.new)) result }
{
    let said = read_isa(alloc, host, &asked.isa)?;
    let isa = said.spec;
    release(said);
    let database = read_marked(alloc, host, &isa, &asked.database, &asked.part)?;
    let (device, database) = beside(read_device_file(alloc, host, &asked.device), database)?;
    let bench = bench_of(alloc, &asked.program, &asked.work, device, isa);
    let (bench, database) = beside(bench, database)?;
    let sources = choose(alloc, database.as_slice());
    release(database);
    let (sources, bench) = beside(sources, bench)?;
    let ended = judge_tests(alloc, host, out, &bench, sources.as_slice());
    release(sources);
    release(bench);
    ended
}

/// The selected tests, with their places.
fn choose(alloc: Global, entries: &[Entry]) -> Result<Items<Source>, NoMemory>
    ensures { IfOk result (λ sources. sources ≡ to_read (chosen 0 entries.now)) }
{
    let mut sources = Items::new(alloc);
    let mut place: usize = 0;
    for entry in entries {
        choose_one(alloc, place, entry, &mut sources)?;
        place += 1;
    }
    Ok(sources)
}

/// Adds the test at this place, where it is selected.
fn choose_one(
    alloc: Global,
    place: usize,
    entry: &Entry,
    sources: &mut Items<Source>,
) -> Result<(), NoMemory>
    ensures { OnOk result
        (sources.new ≡ sources.old ++ to_read (chosen_one place entry.now)) }
{
    if entry.selected {
        let name = owned(alloc, entry.name.as_str())?;
        return sources.push(Source::Read(Given { place, name }));
    }
    Ok(())
}
