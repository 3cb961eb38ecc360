// The command `report`.
ghost use Rattle.std.specs.Prelude.{◌≡◌, [], All, IfOk, take, drop};
ghost use Rattle.rvs_base.specs.Host.{HostState};
ghost use Rattle.rvs_base.specs.Sink.{SinkState};
ghost use Rattle.rvs_plan.specs.World.{World, world, IsAnswer};
ghost use Rattle.rvs_plan.specs.Plan.{gives, ◌>>=◌ as followed};
ghost use Rattle.rvs_plan.specs.Meets.{MeetsWith, Meets};
ghost use Rattle.rvs_cgf.specs.GroupView.{label_view};
ghost use Rattle.rvs_count.specs.Report.{width};
ghost use Rattle.rvs_device.specs.DeviceView.{told};
ghost use Rattle.rvs_page.specs.declared.shown.State.TheVariants as state;
ghost use Rattle.rvs_test.specs.Made.{text_of_label};
ghost use Rattle.rvs_report.specs.Findings.{found_open};
ghost use Rattle.rvs_inputs.specs.GroupsView.{groups_view, inputs_view};
ghost use Rattle.rvs_showing.specs.Showing.{shown_label};
ghost use Rattle.rvs_generate.specs.Testable.{IsTestable, IsTestableIfSelected};
ghost use Rattle.rvs_generate.specs.Tests.{IsRunnable};
ghost use Rattle.rvs_report.specs.Report.{end_by, instructions_in, page_with, shown_core};
ghost use Rattle.rvs_report.specs.Report.{shows_test, shows_by, shows_label, shows_labels};
ghost use Rattle.rvs_report.specs.Report.{finds_page, puts_page, report, shows_page};

use crate::reviewing::{find_test, found_open};
use rvs_base::{Host, Items, NoMemory, Sink, Text, release};
use rvs_cgf::Label;
use rvs_coverage::{Covered, count_quietly, total_of};
use rvs_device::Device;
use rvs_generate::{Test, made_of, read_tested};
use rvs_inputs::{Inputs, read_device_file, release_inputs};
use rvs_insn::{IsaSpec, isa_text};
use rvs_isa::misa_word;
use rvs_page::{Core, Label as ShownLabel, Page, State, Verdict, page_text, verdict_of};
use rvs_plan::{Finish, Stop, print};
use rvs_showing::{shown_label, unselected};
use rvs_test::{Claim, Made};
use rvs_words::{ReportArguments, owned};
use std::alloc::Global;

/// Reads what a run over coverage groups left, judges it anew, and puts a page of it. Nothing is
/// written.
///
/// # Errors
///
/// [`Stop`]; nothing is put before the last file is read.
pub fn report_run<H: Host, O: Sink>(
    alloc: Global,
    asked: &ReportArguments,
    host: &mut H,
    out: &mut O,
) -> Result<Finish, Stop>
    ensures { MeetsWith IsAnswer (report asked.now)
        (world (H.state host.old) (O.state out.old))
        (world (H.state host.new) (O.state out.new)) result }
{
    let page = find_page(alloc, host, asked)?;
    put_page(alloc, &page, out)
}

fn put_page<O: Sink>(alloc: Global, page: &Page, out: &mut O) -> Result<Finish, Stop>
    ensures { (host : HostState) → Meets (puts_page page.now)
        (world host (O.state out.old)) (world host (O.state out.new)) result }
{
    let text = page_text(alloc, page)?;
    let put = print(out, text.as_slice());
    release(text);
    put?;
    Ok(end_by(verdict_of(page.labels.as_slice())))
}

fn end_by(verdict: Verdict) -> Finish
    ensures { result ≡ end_by verdict }
{
    match verdict {
        Verdict::Pass => Finish::Done,
        Verdict::Incomplete => Finish::NotPassed,
        Verdict::Fail => Finish::NotPassed,
    }
}

fn find_page<H: Host>(alloc: Global, host: &mut H, asked: &ReportArguments) -> Result<Page, Stop>
    ensures { (out : SinkState) → MeetsWith IsAnswer (finds_page asked.now)
        (world (H.state host.old) out) (world (H.state host.new) out) result }
{
    let inputs = read_tested(alloc, host, &asked.isa, asked.families, &asked.groups)?;
    let page = show_page(alloc, host, asked, &inputs);
    release_inputs(inputs);
    page
}

/// The page of what was left, where the core and its groups are read.
fn show_page<H: Host>(
    alloc: Global,
    host: &mut H,
    asked: &ReportArguments,
    inputs: &Inputs,
) -> Result<Page, Stop>
    requires { All (λ l. IsTestableIfSelected inputs.now.isa (label_view l)) inputs.now.groups }
    ensures { (out : SinkState) → MeetsWith IsAnswer (shows_page asked.now (inputs_view inputs.now))
        (world (H.state host.old) out) (world (H.state host.new) out) result }
{
    let device = read_device_file(alloc, host, &asked.device)?;
    let windows = asked.windows.as_slice();
    let logs = asked.logs.as_slice();
    let covered = count_quietly(alloc, host, &inputs.groups, windows, logs)?;
    let page = show_covered(alloc, host, asked, inputs, &device, &covered);
    release(covered);
    release(device);
    page
}

/// The page of what was left, where the logs are read too.
fn show_covered<H: Host>(
    alloc: Global,
    host: &mut H,
    asked: &ReportArguments,
    inputs: &Inputs,
    device: &Device,
    covered: &Covered,
) -> Result<Page, Stop>
    requires { All (λ l. IsTestableIfSelected inputs.now.isa (label_view l)) inputs.now.groups }
    ensures { (out : SinkState) → MeetsWith IsAnswer
        (followed (shows_labels inputs.now.isa asked.now.work [] covered.now.counts
        (groups_view inputs.now.groups)) (λ labels. gives
        (page_with asked.now (inputs_view inputs.now) (told device.now) covered.now labels)))
        (world (H.state host.old) out) (world (H.state host.new) out) result }
{
    let groups = inputs.groups.as_slice();
    let counts = covered.counts.as_slice();
    let labels = show_labels(alloc, host, &asked.work, inputs.isa, groups, counts)?;
    Ok(page_with(alloc, asked, inputs, device, covered, labels)?)
}

fn page_with(
    alloc: Global,
    asked: &ReportArguments,
    inputs: &Inputs,
    device: &Device,
    covered: &Covered,
    labels: Items<ShownLabel>,
) -> Result<Page, NoMemory>
    ensures { IfOk result (λ page. page
        ≡ page_with asked.now (inputs_view inputs.now) (told device.now) covered.now labels) }
{
    let name = owned(alloc, device.name.as_str())?;
    let core = core_of(alloc, &inputs.isa)?;
    let instructions = instructions_in(covered, asked.logs.as_slice());
    Ok(Page {
        device: name,
        core,
        instructions,
        labels,
    })
}

/// How many instructions all logs have, where there are some.
fn instructions_in(covered: &Covered, logs: &[Text]) -> Option<u64>
    ensures { result ≡ instructions_in logs.now covered.now }
{
    match logs {
        [] => None,
        [_, ..] => Some(total_of(covered.ran.as_slice())),
    }
}

fn core_of(alloc: Global, isa: &IsaSpec) -> Result<Core, NoMemory>
    ensures { IfOk result (λ core. core ≡ shown_core isa.now) }
{
    Ok(Core {
        isa: isa_text(alloc, isa)?,
        misaligned: isa.misaligned,
        address_bits: isa.address_bits,
        misa: misa_word(isa),
    })
}

/// How many counts are a label's own.
fn width(label: &Label) -> usize
    ensures { result ≡ width (label_view label.now) }
{
    if label.selected {
        label.points.as_slice().len()
    } else {
        0
    }
}

/// The first counts, at most so many, and the rest.
fn cut(counts: &[u64], count: usize) -> (&[u64], &[u64])
    ensures own { result.0.now ≡ take count counts.now }
    ensures others { result.1.now ≡ drop count counts.now }
{
    counts.split_at(count.min(counts.len()))
}

/// Shows labels, each with its own counts.
fn show_labels<H: Host>(
    alloc: Global,
    host: &mut H,
    work: &Text,
    isa: IsaSpec,
    labels: &[Label],
    counts: &[u64],
) -> Result<Items<ShownLabel>, Stop>
    requires { All (λ l. IsTestableIfSelected isa (label_view l)) labels.now }
    ensures { (out : SinkState) → MeetsWith IsAnswer
        (shows_labels isa work.now [] counts.now (groups_view labels.now))
        (world (H.state host.old) out) (world (H.state host.new) out) result }
{
    let mut shown = Items::new(alloc);
    let mut rest = counts;
    for label in labels {
        let (own, others) = cut(rest, width(label));
        let one = show_label(alloc, host, work, isa, label, own)?;
        shown.push(one)?;
        rest = others;
    }
    Ok(shown)
}

fn show_label<H: Host>(
    alloc: Global,
    host: &mut H,
    work: &Text,
    isa: IsaSpec,
    label: &Label,
    counts: &[u64],
) -> Result<ShownLabel, Stop>
    requires { IsTestableIfSelected isa (label_view label.now) }
    ensures { (out : SinkState) → MeetsWith IsAnswer
        (shows_label isa work.now counts.now (label_view label.now))
        (world (H.state host.old) out) (world (H.state host.new) out) result }
{
    if label.selected {
        show_selected(alloc, host, work, isa, label, counts)
    } else {
        let shown = unselected(alloc, label)?;
        Ok(shown)
    }
}

/// Makes the test of a label, and shows what is found of it.
fn show_selected<H: Host>(
    alloc: Global,
    host: &mut H,
    work: &Text,
    isa: IsaSpec,
    label: &Label,
    counts: &[u64],
) -> Result<ShownLabel, Stop>
    requires { IsTestable isa (label_view label.now) }
    ensures { (out : SinkState) → MeetsWith IsAnswer (shows_by isa work.now counts.now
        (label_view label.now) (text_of_label isa (label_view label.now)))
        (world (H.state host.old) out) (world (H.state host.new) out) result }
{
    let made = made_of(alloc, label, &isa)?;
    let Made {
        text,
        claims,
        unsolved,
        steps,
    } = made;
    release(unsolved);
    match text {
        None => {
            let shown = show_untested(alloc, label, claims.as_slice(), counts);
            release(claims);
            shown
        },
        Some(text) => {
            let test = test_of(alloc, label, text, steps)?;
            let told = claims.as_slice();
            let shown = show_test(alloc, host, work, isa, label, told, &test, counts);
            release(claims);
            shown
        },
    }
}

/// Shows a label of which no point is solved.
fn show_untested(
    alloc: Global,
    label: &Label,
    claims: &[Claim],
    counts: &[u64],
) -> Result<ShownLabel, Stop>
    ensures { (w : World) → MeetsWith IsAnswer (gives (shown_label (found_open state.NoTest) []
        counts.now claims.now (label_view label.now))) w w result }
{
    let found = found_open(alloc, State::NoTest);
    let shown = shown_label(alloc, label, claims, b"", &found, counts);
    release(found);
    Ok(shown?)
}

fn test_of(alloc: Global, label: &Label, text: Text, steps: u64) -> Result<Test, NoMemory>
    ensures { IfOk result (λ test.
        test ≡ record { name = label.now.name; text = text; steps = steps }) }
{
    let name = owned(alloc, label.name.as_str())?;
    Ok(Test { name, text, steps })
}

/// Shows a label with what is found of its test.
fn show_test<H: Host>(
    alloc: Global,
    host: &mut H,
    work: &Text,
    isa: IsaSpec,
    label: &Label,
    claims: &[Claim],
    test: &Test,
    counts: &[u64],
) -> Result<ShownLabel, Stop>
    requires { IsRunnable isa test.now }
    ensures { (out : SinkState) → MeetsWith IsAnswer
        (shows_test isa work.now counts.now claims.now (label_view label.now) test.now)
        (world (H.state host.old) out) (world (H.state host.new) out) result }
{
    let found = find_test(alloc, host, isa, work, test)?;
    let text = test.text.as_str().as_bytes();
    let shown = shown_label(alloc, label, claims, text, &found, counts);
    release(found);
    Ok(shown?)
}
