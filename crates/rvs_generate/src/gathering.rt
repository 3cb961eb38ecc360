// The tests of all labels at once.
ghost use Rattle.std.specs.Prelude.{◌≡◌, ◌++◌, All, IfOk, OnOk};
ghost use Rattle.rvs_cgf.specs.GroupView.{label_view};
ghost use Rattle.rvs_points.specs.Valid.{IsValidIfSelected};
ghost use Rattle.rvs_generate.specs.GenerateTexts as texts;
ghost use Rattle.rvs_generate.specs.GenerateView.{totals_view};
ghost use Rattle.rvs_inputs.specs.GroupsView.{groups_view};
ghost use Rattle.rvs_generate.specs.Tests.{held, test_with, tests_of_label, tests_of};

use crate::listing::push_total;
use crate::making::{Said, say_made};
use crate::sources::Source;
use rvs_base::{Items, NoMemory, Text, release};
use rvs_cgf::Label;
use rvs_count::push_unselected;
use rvs_inputs::Inputs;
use rvs_insn::IsaSpec;
use rvs_test::Made;
use rvs_words::owned;
use std::alloc::Global;

/// The test of a label.
#[derive(Drop)]
pub struct Test {
    /// The name of the label.
    pub name: Text,
    pub text: Text,
    /// How many instructions its run takes at most.
    pub steps: u64,
}

/// The listing of all labels, and their tests.
#[derive(Drop)]
pub struct Gathered {
    pub text: Text,
    pub tests: Items<Source>,
}

/// Makes the tests of all labels, and says what they are.
///
/// # Errors
///
/// [`NoMemory`].
pub fn gather_tests(alloc: Global, inputs: &Inputs) -> Result<Gathered, NoMemory>
    requires { All (λ l. IsValidIfSelected inputs.now.isa (label_view l)) inputs.now.groups }
    ensures text { IfOk result (λ g.
        g.text ≡ texts.listing inputs.now.isa (groups_view inputs.now.groups)) }
    ensures tests { IfOk result (λ g.
        g.tests ≡ held (tests_of inputs.now.isa (groups_view inputs.now.groups))) }
{
    let labels = inputs.groups.as_slice();
    let mut said = Said::nothing(alloc);
    let mut tests = Items::new(alloc);
    for label in labels {
        gather_label(alloc, &inputs.isa, label, &mut said, &mut tests)?;
    }
    push_total(alloc, &mut said.text, &said.totals)?;
    Ok(Gathered {
        text: said.text,
        tests,
    })
}

/// Makes the test of a label, where a point of it is solved, and says what it is.
fn gather_label(
    alloc: Global,
    isa: &IsaSpec,
    label: &Label,
    said: &mut Said,
    tests: &mut Items<Source>,
) -> Result<(), NoMemory>
    requires { IsValidIfSelected isa.now (label_view label.now) }
    ensures text { OnOk result (said.new.text
        ≡ said.old.text ++ texts.label_text isa.now (label_view label.now)) }
    ensures totals { OnOk result (totals_view said.new.totals
        ≡ texts.with_label isa.now (totals_view said.old.totals) (label_view label.now)) }
    ensures tests { OnOk result (tests.new
        ≡ tests.old ++ held (tests_of_label isa.now (label_view label.now))) }
{
    if label.selected {
        let Made {
            text,
            claims,
            unsolved,
            steps,
        } = say_made(alloc, isa, label, said)?;
        release(claims);
        release(unsolved);
        return push_test(alloc, label, text, steps, tests);
    }
    push_unselected(alloc, &mut said.text, label)
}

/// Adds a test, where there is a text.
fn push_test(
    alloc: Global,
    label: &Label,
    text: Option<Text>,
    steps: u64,
    tests: &mut Items<Source>,
) -> Result<(), NoMemory>
    ensures { OnOk result (tests.new ≡ tests.old ++ held (test_with label.now.name steps text)) }
{
    match text {
        None => Ok(()),
        Some(text) => {
            let name = owned(alloc, label.name.as_str())?;
            tests.push(Source::Held(Test { name, text, steps }))
        },
    }
}
