// The command `select`.
ghost use Rattle.rvs_base.specs.Host.{HostState};
ghost use Rattle.rvs_base.specs.Sink.{SinkState};
ghost use Rattle.rvs_plan.specs.World.{world};
ghost use Rattle.rvs_plan.specs.Meets.{Meets};
ghost use Rattle.rvs_plain.specs.Select.{reads_selection, print_selection, select};

use rvs_base::{Host, Sink};
use rvs_inputs::{print_text, read_database_file, read_isa};
use rvs_plan::{Finish, Stop};
use rvs_select::{Database, selection_text};
use rvs_words::SelectArguments;
use std::alloc::Global;

/// Reads a database of tests, and puts which of them are selected for the core of an ISA file.
///
/// # Errors
///
/// [`Stop`]; nothing is put before both files are accepted.
pub fn select_tests<H: Host, O: Sink>(
    alloc: Global,
    asked: &SelectArguments,
    host: &mut H,
    out: &mut O,
) -> Result<Finish, Stop>
    ensures { Meets (select asked.now) (world (H.state host.old) (O.state out.old))
        (world (H.state host.new) (O.state out.new)) result }
{
    let database = read_selection(alloc, asked, host)?;
    print_selection(alloc, &database, out)
}

fn read_selection<H: Host>(
    alloc: Global,
    asked: &SelectArguments,
    host: &mut H,
) -> Result<Database, Stop>
    ensures { (out : SinkState) → Meets (reads_selection asked.now)
        (world (H.state host.old) out) (world (H.state host.new) out) result }
{
    let said = read_isa(alloc, host, &asked.isa)?;
    let isa = said.spec;
    read_database_file(alloc, host, &isa, &asked.database)
}

fn print_selection<O: Sink>(alloc: Global, database: &Database, out: &mut O) -> Result<Finish, Stop>
    ensures { (host : HostState) → Meets (print_selection database.now)
        (world host (O.state out.old)) (world host (O.state out.new)) result }
{
    let text = selection_text(alloc, database)?;
    print_text(&text, out)
}
