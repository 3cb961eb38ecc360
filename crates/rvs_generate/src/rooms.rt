// Whether a core has room for the tests of labels.
ghost use Rattle.std.specs.Prelude.{◌≡◌, ◌<◌, All, IfOk, find, option_map};
ghost use Rattle.rvs_base.specs.Sink.{SinkState};
ghost use Rattle.rvs_base.specs.Answers.{seen};
ghost use Rattle.rvs_plan.specs.World.{world};
ghost use Rattle.rvs_plan.specs.Meets.{Meets};
ghost use Rattle.rvs_insn.specs.Memory.{HasRoom};
ghost use Rattle.rvs_cgf.specs.GroupView.{label_view};
ghost use Rattle.rvs_points.specs.Valid.{IsValidIfSelected};
ghost use Rattle.rvs_inputs.specs.GroupsView.{groups_view, inputs_view};
ghost use Rattle.rvs_generate.specs.TestedInputs.{lacks_room, no_room, tested_inputs};
ghost use Rattle.rvs_generate.specs.Testable.{IsTestableIfSelected};
ghost use Rattle.rvs_generate.specs.TestedInputs.{part_inputs};

use rvs_abstract::Families;
use rvs_base::{Host, Items, NoMemory, Text, beside, release};
use rvs_cgf::{CgfKind, CgfRefusal, Label};
use rvs_expr::Steps;
use rvs_free::Free;
use rvs_inputs::{GROUPS_NAME, Inputs, kept_labels, read_inputs, release_inputs};
use rvs_insn::IsaSpec;
use rvs_parts::Part;
use rvs_plan::{Stop, input_text};
use rvs_test::has_room;
use rvs_words::owned;
use std::alloc::Global;
use std::marker::Brand;
use std::sync::ledger::{Blank, Ledger};

/// Reads an ISA file, and then coverage group files for its core, which has to have room for the
/// test of each label.
///
/// # Errors
///
/// [`Stop`]: a file isn't there, can't be read, or isn't accepted, or a test has no room.
pub fn read_tested<H: Host>(
    alloc: Global,
    host: &mut H,
    isa: &Text,
    families: Families,
    names: &Items<Text>,
) -> Result<Inputs, Stop>
    ensures met { (out : SinkState) → Meets (tested_inputs isa.now families names.now)
        (world (H.state host.old) out) (world (H.state host.new) out) (seen inputs_view result) }
    ensures testable { IfOk result (λ i.
        All (λ l. IsTestableIfSelected i.isa (label_view l)) i.groups) }
{
    let inputs = read_inputs(alloc, host, isa, families, names)?;
    let lacking = first_lacking(alloc, &inputs.isa, inputs.groups.as_slice());
    let (lacking, inputs) = beside(lacking, inputs)?;
    match lacking {
        None => Ok(inputs),
        Some(text) => {
            release_inputs(inputs);
            Err(Stop::Refused(text))
        },
    }
}

/// Why labels are refused: the first that is selected and for whose test the core has no room.
fn first_lacking(alloc: Global, isa: &IsaSpec, labels: &[Label]) -> Result<Option<Text>, NoMemory>
    requires { All (λ l. IsValidIfSelected isa.now (label_view l)) labels.now }
    ensures text { IfOk result (λ text.
        text ≡ option_map no_room (find (lacks_room isa.now) (groups_view labels.now))) }
    ensures room { HasRoom isa.now.memory }
{
    // that the memory has room at all is an invariant of its type, which this call brings
    let _limit = isa.memory.text_limit();
    lacking_counted::<Brand>(Blank::new(1), alloc, isa, labels)
}

/// The same, with a counter of evaluations that no one reads.
fn lacking_counted<L: Ledger>(
    blank: Blank,
    alloc: Global,
    isa: &IsaSpec,
    labels: &[Label],
) -> Result<Option<Text>, NoMemory>
    requires name { blank.name ≡ L.name }
    requires parts { blank.parts ≡ L.parts }
    requires some { 0 < blank.parts }
    requires valid { All (λ l. IsValidIfSelected isa.now (label_view l)) labels.now }
    ensures { IfOk result (λ text.
        text ≡ option_map no_room (find (lacks_room isa.now) (groups_view labels.now))) }
{
    let mut steps: Steps<L> = Steps::new(blank, Free::new());
    find_lacking(alloc, isa, labels, &mut steps)
}

fn find_lacking<L: Ledger>(
    alloc: Global,
    isa: &IsaSpec,
    labels: &[Label],
    steps: &mut Steps<L>,
) -> Result<Option<Text>, NoMemory>
    requires { All (λ l. IsValidIfSelected isa.now (label_view l)) labels.now }
    ensures { IfOk result (λ text.
        text ≡ option_map no_room (find (lacks_room isa.now) (groups_view labels.now))) }
{
    for label in labels {
        if label.selected && !has_room(alloc, label, isa, steps)? {
            return Ok(Some(no_room(alloc, label)?));
        }
    }
    Ok(None)
}

/// Why groups are refused for a label for whose test there is no room.
fn no_room(alloc: Global, label: &Label) -> Result<Text, NoMemory>
    ensures { IfOk result (λ text. text ≡ no_room (label_view label.now)) }
{
    let refusal = CgfRefusal {
        label: owned(alloc, label.name.as_str())?,
        node: Text::new(alloc),
        key: Text::new(alloc),
        kind: CgfKind::NoRoom,
    };
    let text = input_text(alloc, GROUPS_NAME, &refusal);
    release(refusal);
    text
}

/// Reads an ISA file, and then coverage group files for its core, of which the labels of a part are
/// kept, where one is asked for.
///
/// # Errors
///
/// [`Stop`]: a file isn't there, can't be read, or isn't accepted, or the core has no room for the
/// test of a label, in the part or not.
pub fn read_labels<H: Host>(
    alloc: Global,
    host: &mut H,
    isa: &Text,
    families: Families,
    names: &Items<Text>,
    part: &Option<Part>,
) -> Result<Inputs, Stop>
    ensures met { (out : SinkState) → Meets (part_inputs part.now isa.now families names.now)
        (world (H.state host.old) out) (world (H.state host.new) out) (seen inputs_view result) }
    ensures testable { IfOk result
        (λ i. All (λ l. IsTestableIfSelected i.isa (label_view l)) i.groups) }
{
    let inputs = read_tested(alloc, host, isa, families, names)?;
    let Inputs { isa, groups } = inputs;
    let groups = kept_labels(alloc, groups, part)?;
    Ok(Inputs { isa, groups })
}
