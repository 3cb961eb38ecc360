// The command `propagate`.
ghost use Rattle.std.specs.Prelude.{◌≡◌, IfOk, length, map};
ghost use Rattle.rvs_base.specs.Sink.{SinkState};
ghost use Rattle.rvs_plan.specs.World.{world};
ghost use Rattle.rvs_plan.specs.Meets.{Meets};
ghost use Rattle.rvs_index.specs.Counting.{aims_in};
ghost use Rattle.rvs_inputs.specs.GroupsView.{groups_view};
ghost use Rattle.rvs_propagate.specs.Propagate.{untracked, report_on, measure, AreLong};
ghost use Rattle.rvs_propagate.specs.Propagate.{file_name, propagate};
ghost use Rattle.rvs_coverage.specs.Telling.{HasToldOf, as_planned, lines_of_logs};
ghost use Rattle.rvs_coverage.specs.LogReport.{reads_logs};

use rvs_base::{Host, Items, NoMemory, Sink, Text, Window, beside, release};
use rvs_cgf::Groups;
use rvs_count::zeros;
use rvs_coverage::{
    LogTaker, Unfinished, plus_each, take_log, take_onto, total_of, under_lines, unlost,
    with_number,
};
use rvs_inputs::{print_text, read_inputs, release_inputs};
use rvs_plan::Finish;
use rvs_prop::{Tracker, Trail, new_tracker, propagation_text};
use rvs_words::{PropagateArguments, SignedLog, owned};
use std::alloc::Global;

/// What was tracked in some logs.
#[derive(Drop)]
pub struct Traced {
    /// How many hits of each point of the groups reached the signature.
    pub reached: Items<u64>,
    /// How often each point was hit.
    pub hits: Items<u64>,
    /// How many instructions each log has, in order.
    pub ran: Items<u64>,
}

/// Counts how many hits of coverage points have their instruction's result stored in the signature,
/// and puts the report. Each log is tracked by itself and read in one pass, in memory that doesn't
/// depend on its length, and the numbers are added up. Where it is asked for, `err` is told how far
/// the logs have been read.
///
/// # Errors
///
/// [`Unfinished`]; nothing is put before the last log has been read to its end.
pub fn propagate_log<H: Host, O: Sink, E: Sink>(
    alloc: Global,
    asked: &PropagateArguments,
    host: &mut H,
    out: &mut O,
    err: &mut E,
) -> Result<Finish, Unfinished>
    ensures met { Meets (propagate asked.now)
        (world (H.state host.old) (O.state out.old))
        (world (H.state host.new) (O.state out.new)) (as_planned result) }
    ensures told { HasToldOf asked.now.progress (lines_of_logs file_name asked.now.logs)
        (H.state host.old) (E.state err.old) (E.state err.new) result }
{
    let inputs = read_inputs(alloc, host, &asked.isa, asked.families, &asked.groups)?;
    let outcome = report_logs(alloc, host, err, &inputs.groups, asked);
    release_inputs(inputs);
    let report = outcome?;
    unlost(print_text(&report, out))
}

/// Tracks hits in all logs, one after the other, with one tracker, and makes the report.
fn report_logs<H: Host, E: Sink>(
    alloc: Global,
    host: &mut H,
    err: &mut E,
    groups: &Groups,
    asked: &PropagateArguments,
) -> Result<Text, Unfinished>
    ensures met { (out : SinkState) → Meets
        (reads_logs measure asked.now.logs (groups_view groups.now))
        (world (H.state host.old) out) (world (H.state host.new) out) (as_planned result) }
    ensures told { HasToldOf asked.now.progress (lines_of_logs file_name asked.now.logs)
        (H.state host.old) (E.state err.old) (E.state err.new) result }
{
    let logs = asked.logs.as_slice();
    let none = nothing(alloc, groups, logs.len())?;
    let tracker = new_tracker(alloc, groups, Window { lo: 0, hi: 0 });
    let (tracker, none) = beside(tracker, none)?;
    let mut tracking = Tracking { tracker };
    let outcome = take_onto(alloc, host, err, asked.progress, &mut tracking, none, logs);
    release(tracking);
    let tracked = outcome?;
    let report = report_of(alloc, groups, logs, &tracked);
    release(tracked);
    Ok(report?)
}

#[tactic(auto, unfolding(crate::specs::Propagate::report_on))]
fn report_of(
    alloc: Global,
    groups: &Groups,
    logs: &[SignedLog],
    tracked: &Traced,
) -> Result<Text, NoMemory>
    requires { AreLong (length (aims_in groups.now)) tracked.now }
    ensures { IfOk result
        (λ text. text ≡ report_on (groups_view groups.now) logs.now tracked.now) }
{
    let names = names_of(alloc, logs)?;
    let reached = tracked.reached.as_slice();
    let hits = tracked.hits.as_slice();
    let ran = tracked.ran.as_slice();
    let report = propagation_text(alloc, groups, reached, hits, total_of(ran))?;
    under_lines(alloc, names.as_slice(), ran, report)
}

/// The names of the logs' files.
fn names_of(alloc: Global, logs: &[SignedLog]) -> Result<Items<Text>, NoMemory>
    ensures { IfOk result (λ names. names ≡ map file_name logs.now) }
{
    let mut names = Items::new(alloc);
    for log in logs {
        names.push(owned(alloc, log.name.as_str())?)?;
    }
    Ok(names)
}

/// Nothing tracked of the points of groups, with room for so many logs.
fn nothing(alloc: Global, groups: &Groups, logs: usize) -> Result<Traced, NoMemory>
    ensures tracked { IfOk result (λ t. t ≡ untracked (groups_view groups.now)) }
    ensures long { IfOk result (AreLong (length (aims_in groups.now))) }
{
    let reached = zeros(alloc, groups.as_slice())?;
    let hits = zeros(alloc, groups.as_slice())?;
    let ran = Vec::with_capacity(alloc, logs)?;
    Ok(Traced {
        reached: Items::from(reached),
        hits: Items::from(hits),
        ran: Items::from(ran),
    })
}

/// A tracker that takes one log after the other.
#[derive(Drop)]
struct Tracking<'g> {
    tracker: Tracker<'g>,
}

impl<'g> LogTaker for Tracking<'g> {
    ghost use Rattle.rvs_propagate.specs.Propagate.{AreLong, file_name, taken_more};

    type Log = SignedLog;

    type Known = Traced;

    ghost name = { file_name };

    ghost more = { taken_more };

    ghost fits = { AreLong };

    fn take_one<H: Host, E: Sink>(
        &mut self,
        alloc: Global,
        host: &mut H,
        err: &mut E,
        progress: bool,
        known: Traced,
        log: &SignedLog,
    ) -> Result<Traced, Unfinished> {
        self.tracker.restart(log.signature);
        let name = log.name.as_str();
        take_log::<H, E, Trail<'g>, Traced>(alloc, host, err, progress, &mut self.tracker, name)?;
        let trail = self.tracker.told();
        let reached = plus_each(known.reached, trail.reached());
        let hits = plus_each(known.hits, trail.hits());
        let (ran, counts) = beside(
            with_number(known.ran, trail.instructions()),
            (reached, hits),
        )?;
        Ok(Traced {
            reached: counts.0,
            hits: counts.1,
            ran,
        })
    }
}
