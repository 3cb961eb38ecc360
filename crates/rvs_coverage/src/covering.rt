// The command `coverage`.
ghost use Rattle.std.specs.Prelude.{◌≡◌, IfOk, length};
ghost use Rattle.rvs_base.specs.Sink.{SinkState};
ghost use Rattle.rvs_plan.specs.World.{world};
ghost use Rattle.rvs_plan.specs.Meets.{Meets};
ghost use Rattle.rvs_index.specs.Counting.{aims_in};
ghost use Rattle.rvs_inputs.specs.GroupsView.{groups_view};
ghost use Rattle.rvs_coverage.specs.Coverage.{uncounted, report_on, measure};
ghost use Rattle.rvs_coverage.specs.Coverage.{file_name, counts_more, coverage};
ghost use Rattle.rvs_coverage.specs.Telling.{HasToldOf, as_planned, lines_of_logs};
ghost use Rattle.rvs_coverage.specs.LogReport.{takes_logs, reads_logs};

use crate::log_lines::under_lines;
use crate::summing::{plus_each, total_of, with_number};
use crate::taking_logs::{LogTaker, take_log, take_onto};
use crate::unfinished::{Unfinished, as_planned, unlost};
use rvs_base::{Host, Items, MemorySink, NoMemory, Sink, Text, Window, beside, release};
use rvs_cgf::Groups;
use rvs_count::{Counter, Tally, new_counter, report_text, zeros};
use rvs_inputs::{print_text, read_inputs, release_inputs};
use rvs_plan::{Finish, Stop};
use rvs_words::CoverageArguments;
use std::alloc::Global;

/// What was counted in some logs.
#[derive(Drop)]
pub struct Covered {
    /// How often each point of the groups was hit.
    pub counts: Items<u64>,
    /// How many instructions the windows leave of each log, in order.
    pub ran: Items<u64>,
}

/// Counts which points of coverage groups the instructions of logs hit, and puts the report. Where
/// windows are given, the instructions in them alone are counted. Each log is counted by itself and
/// read in one pass, in memory that doesn't depend on its length, and the numbers are added up.
/// Where it is asked for, `err` is told how far the logs have been read.
///
/// # Errors
///
/// [`Unfinished`]; nothing is put before the last log has been read to its end.
pub fn cover_log<H: Host, O: Sink, E: Sink>(
    alloc: Global,
    asked: &CoverageArguments,
    host: &mut H,
    out: &mut O,
    err: &mut E,
) -> Result<Finish, Unfinished>
    ensures met { Meets (coverage asked.now)
        (world (H.state host.old) (O.state out.old))
        (world (H.state host.new) (O.state out.new)) (as_planned result) }
    ensures told { HasToldOf asked.now.progress (lines_of_logs file_name asked.now.logs)
        (H.state host.old) (E.state err.old) (E.state err.new) result }
{
    let inputs = read_inputs(alloc, host, &asked.isa, asked.families, &asked.groups)?;
    let outcome = report_logs(alloc, host, err, &inputs.groups, asked);
    release_inputs(inputs);
    let report = outcome?;
    unlost(print_text(&report, out))
}

/// Counts in all logs, and makes the report.
fn report_logs<H: Host, E: Sink>(
    alloc: Global,
    host: &mut H,
    err: &mut E,
    groups: &Groups,
    asked: &CoverageArguments,
) -> Result<Text, Unfinished>
    ensures met { (out : SinkState) → Meets
        (reads_logs (measure asked.now.windows) asked.now.logs (groups_view groups.now))
        (world (H.state host.old) out) (world (H.state host.new) out) (as_planned result) }
    ensures told { HasToldOf asked.now.progress (lines_of_logs file_name asked.now.logs)
        (H.state host.old) (E.state err.old) (E.state err.new) result }
{
    let windows = asked.windows.as_slice();
    let logs = asked.logs.as_slice();
    let counted = count_all(alloc, host, err, asked.progress, groups, windows, logs)?;
    Ok(report_of(alloc, groups, logs, &counted)?)
}

#[tactic(auto, unfolding(crate::specs::Coverage::report_on))]
fn report_of(
    alloc: Global,
    groups: &Groups,
    names: &[Text],
    counted: &Covered,
) -> Result<Text, NoMemory>
    requires { length counted.now.counts ≡ length (aims_in groups.now) }
    ensures { IfOk result
        (λ text. text ≡ report_on (groups_view groups.now) names.now counted.now) }
{
    let counts = counted.counts.as_slice();
    let ran = counted.ran.as_slice();
    let report = report_text(alloc, groups, counts, total_of(ran))?;
    under_lines(alloc, names, ran, report)
}

/// Nothing counted of the points of groups, with room for so many logs.
fn nothing(alloc: Global, groups: &Groups, logs: usize) -> Result<Covered, NoMemory>
    ensures counted { IfOk result (λ c. c ≡ uncounted (groups_view groups.now)) }
    ensures long { IfOk result (λ c. length c.counts ≡ length (aims_in groups.now)) }
{
    let counts = zeros(alloc, groups.as_slice())?;
    let ran = Vec::with_capacity(alloc, logs)?;
    Ok(Covered {
        counts: Items::from(counts),
        ran: Items::from(ran),
    })
}

/// Counts in all logs, and tells nothing of it.
pub fn count_quietly<H: Host>(
    alloc: Global,
    host: &mut H,
    groups: &Groups,
    windows: &[Window],
    logs: &[Text],
) -> Result<Covered, Stop>
    ensures met { (out : SinkState) → Meets
        (takes_logs file_name (counts_more windows.now (groups_view groups.now))
        (uncounted (groups_view groups.now)) logs.now)
        (world (H.state host.old) out) (world (H.state host.new) out) result }
    ensures long { IfOk result (λ c. length c.counts ≡ length (aims_in groups.now)) }
{
    let mut nobody = MemorySink::new(Items::new(alloc));
    as_planned(count_all(alloc, host, &mut nobody, false, groups, windows, logs))
}

/// Counts in all logs, one after the other, with one counter.
fn count_all<H: Host, E: Sink>(
    alloc: Global,
    host: &mut H,
    err: &mut E,
    progress: bool,
    groups: &Groups,
    windows: &[Window],
    logs: &[Text],
) -> Result<Covered, Unfinished>
    ensures met { (out : SinkState) → Meets
        (takes_logs file_name (counts_more windows.now (groups_view groups.now))
        (uncounted (groups_view groups.now)) logs.now)
        (world (H.state host.old) out) (world (H.state host.new) out) (as_planned result) }
    ensures long { IfOk result (λ c. length c.counts ≡ length (aims_in groups.now)) }
    ensures told { HasToldOf progress (lines_of_logs file_name logs.now)
        (H.state host.old) (E.state err.old) (E.state err.new) result }
{
    let none = nothing(alloc, groups, logs.len())?;
    let (kept, none) = beside(windows.to_vec(alloc), none)?;
    let counter = new_counter(alloc, groups, Items::from(kept));
    let (mut counter, none) = beside(counter, none)?;
    let covered = take_onto(alloc, host, err, progress, &mut counter, none, logs);
    release(counter);
    covered
}

impl<'g> LogTaker for Counter<'g> {
    ghost use Rattle.std.specs.Prelude.{◌≡◌, length};
    ghost use Rattle.rvs_coverage.specs.Coverage.{file_name, taken_more};

    type Log = Text;

    type Known = Covered;

    ghost name = { file_name };

    ghost more = { taken_more };

    ghost fits = { λ n c. length c.counts ≡ n };

    fn take_one<H: Host, E: Sink>(
        &mut self,
        alloc: Global,
        host: &mut H,
        err: &mut E,
        progress: bool,
        known: Covered,
        log: &Text,
    ) -> Result<Covered, Unfinished> {
        self.restart(());
        take_log::<H, E, Tally<'g>, Covered>(alloc, host, err, progress, self, log.as_str())?;
        let tally = self.told();
        let counts = plus_each(known.counts, tally.counts());
        let (ran, counts) = beside(with_number(known.ran, tally.instructions()), counts)?;
        Ok(Covered { counts, ran })
    }
}
