// What is made of labels, and said of them.
ghost use Rattle.std.specs.Prelude.{◌≡◌, ◌<◌, ◌++◌, [], IfOk, OnOk};
ghost use Rattle.rvs_cgf.specs.GroupView.{label_view};
ghost use Rattle.rvs_points.specs.Valid.{IsValid};
ghost use Rattle.rvs_generate.specs.GenerateTexts as texts;
ghost use Rattle.rvs_generate.specs.GenerateView.{IsMade, totals_view};

use crate::listing::{Totals, push_made};
use rvs_base::{NoMemory, Text, beside};
use rvs_cgf::Label;
use rvs_expr::Steps;
use rvs_free::Free;
use rvs_insn::IsaSpec;
use rvs_test::{Made, make_test};
use std::alloc::Global;
use std::marker::Brand;
use std::sync::ledger::{Blank, Ledger};

/// What is said of the labels so far.
#[derive(Drop)]
pub struct Said {
    pub text: Text,
    pub totals: Totals,
}

impl Said {
    /// Nothing, where no label was made.
    pub fn nothing(alloc: Global) -> Said
        ensures text { result.text ≡ [] }
        ensures totals { totals_view result.totals ≡ texts.none }
    {
        Said {
            text: Text::new(alloc),
            totals: Totals {
                tests: 0,
                cases: 0,
                unsolved: 0,
                skipped: 0,
            },
        }
    }
}

/// Makes the test of a selected label, and says what it is.
///
/// # Errors
///
/// [`NoMemory`].
pub fn say_made(
    alloc: Global,
    isa: &IsaSpec,
    label: &Label,
    said: &mut Said,
) -> Result<Made, NoMemory>
    requires { IsValid isa.now (label_view label.now) }
    ensures made { IfOk result (λ m. IsMade isa.now (label_view label.now) m) }
    ensures text { OnOk result (said.new.text ≡ said.old.text
        ++ texts.selected_text isa.now (label_view label.now)) }
    ensures totals { OnOk result (totals_view said.new.totals
        ≡ texts.with_selected isa.now (totals_view said.old.totals) (label_view label.now)) }
{
    let made = made_of(alloc, label, isa)?;
    let ((), made) = beside(push_made(alloc, &mut said.text, label, &made), made)?;
    said.totals.add(label, &made);
    Ok(made)
}

/// The test of a label.
pub fn made_of(alloc: Global, label: &Label, isa: &IsaSpec) -> Result<Made, NoMemory>
    requires { IsValid isa.now (label_view label.now) }
    ensures { IfOk result (λ m. IsMade isa.now (label_view label.now) m) }
{
    make_counted::<Brand>(Blank::new(1), alloc, label, isa)
}

/// The same, with a counter of evaluations that no one reads.
fn make_counted<L: Ledger>(
    blank: Blank,
    alloc: Global,
    label: &Label,
    isa: &IsaSpec,
) -> Result<Made, NoMemory>
    requires name { blank.name ≡ L.name }
    requires parts { blank.parts ≡ L.parts }
    requires some { 0 < blank.parts }
    requires valid { IsValid isa.now (label_view label.now) }
    ensures { IfOk result (λ m. IsMade isa.now (label_view label.now) m) }
{
    let mut steps: Steps<L> = Steps::new(blank, Free::new());
    make_test(alloc, label, isa, &mut steps)
}
