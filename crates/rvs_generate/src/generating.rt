// The command `generate`.
ghost use Rattle.std.specs.Prelude.{◌≡◌, ◌++◌, All, OnOk};
ghost use Rattle.rvs_base.specs.Sink.{SinkState};
ghost use Rattle.rvs_plan.specs.World.{world};
ghost use Rattle.rvs_plan.specs.Meets.{Meets};
ghost use Rattle.rvs_cgf.specs.GroupView.{label_view};
ghost use Rattle.rvs_points.specs.Valid.{IsValidIfSelected};
ghost use Rattle.rvs_generate.specs.GenerateTexts as texts;
ghost use Rattle.rvs_generate.specs.GenerateView.{totals_view};
ghost use Rattle.rvs_inputs.specs.GroupsView.{groups_view};
ghost use Rattle.rvs_generate.specs.Generate.{path_of, writes_text, writes_test, written_tests};
ghost use Rattle.rvs_generate.specs.Generate.{generate};

use crate::listing::push_total;
use crate::making::{Said, say_made};
use crate::rooms::read_labels;
use crate::test_files::path;
use rvs_base::{Host, Sink, Text, release};
use rvs_cgf::Label;
use rvs_count::push_unselected;
use rvs_inputs::{Inputs, print_text, release_inputs};
use rvs_insn::IsaSpec;
use rvs_plan::{Finish, Stop, write_output};
use rvs_words::GenerateArguments;
use std::alloc::Global;

/// Reads coverage group files for the core of an ISA file, writes a test for each label that has a
/// solved point, and puts the cases and the points that no choice hits.
///
/// # Errors
///
/// [`Stop`]; nothing is written before all files are accepted, and nothing is put before all tests
/// are written.
pub fn generate_tests<H: Host, O: Sink>(
    alloc: Global,
    asked: &GenerateArguments,
    host: &mut H,
    out: &mut O,
) -> Result<Finish, Stop>
    ensures { Meets (generate asked.now)
        (world (H.state host.old) (O.state out.old))
        (world (H.state host.new) (O.state out.new)) result }
{
    let inputs = read_labels(
        alloc,
        host,
        &asked.isa,
        asked.families,
        &asked.groups,
        &asked.part,
    )?;
    let written = write_tests(alloc, host, &asked.work, &inputs);
    release_inputs(inputs);
    let text = written?;
    print_text(&text, out)
}

/// Writes the tests of all labels, and says what they are.
fn write_tests<H: Host>(
    alloc: Global,
    host: &mut H,
    work: &Text,
    inputs: &Inputs,
) -> Result<Text, Stop>
    requires { All (λ l. IsValidIfSelected inputs.now.isa (label_view l)) inputs.now.groups }
    ensures { (out : SinkState) → Meets
        (written_tests work.now inputs.now.isa (groups_view inputs.now.groups))
        (world (H.state host.old) out) (world (H.state host.new) out) result }
{
    let labels = inputs.groups.as_slice();
    let mut said = Said::nothing(alloc);
    for label in labels {
        write_test(alloc, host, work, &inputs.isa, label, &mut said)?;
    }
    push_total(alloc, &mut said.text, &said.totals)?;
    Ok(said.text)
}

/// Writes the test of a label, where a point of it is solved, and says what it is.
fn write_test<H: Host>(
    alloc: Global,
    host: &mut H,
    work: &Text,
    isa: &IsaSpec,
    label: &Label,
    said: &mut Said,
) -> Result<(), Stop>
    requires { IsValidIfSelected isa.now (label_view label.now) }
    ensures met { (out : SinkState) → Meets (writes_test work.now isa.now (label_view label.now))
        (world (H.state host.old) out) (world (H.state host.new) out) result }
    ensures text { OnOk result (said.new.text
        ≡ said.old.text ++ texts.label_text isa.now (label_view label.now)) }
    ensures totals { OnOk result (totals_view said.new.totals
        ≡ texts.with_label isa.now (totals_view said.old.totals) (label_view label.now)) }
{
    if !label.selected {
        push_unselected(alloc, &mut said.text, label)?;
        return Ok(());
    }
    let made = say_made(alloc, isa, label, said)?;
    let written = write_text(alloc, host, work, &label.name, &made.text);
    release(made);
    written
}

fn write_text<H: Host>(
    alloc: Global,
    host: &mut H,
    work: &Text,
    name: &Text,
    text: &Option<Text>,
) -> Result<(), Stop>
    ensures { (out : SinkState) → Meets (writes_text (path_of work.now name.now) text.now)
        (world (H.state host.old) out) (world (H.state host.new) out) result }
{
    match text {
        None => Ok(()),
        Some(text) => {
            let name = path(alloc, work, name, ".S")?;
            write_output(host, name, text.as_str().as_bytes())
        },
    }
}
