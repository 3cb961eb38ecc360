// What `generate` puts.
ghost use Rattle.std.specs.Prelude.{◌≡◌, ◌++◌, OnOk, map};
ghost use Rattle.rvs_cgf.specs.GroupView.{label_view, point_view};
ghost use Rattle.rvs_generate.specs.GenerateTexts as spec;
ghost use Rattle.rvs_generate.specs.GenerateView.{totals_view};

use rvs_base::{NoMemory, Text};
use rvs_cgf::{Label, Point};
use rvs_count::push_skipped;
use rvs_test::{Claim, Made};
use rvs_test_text::{case_at, claims_after};
use std::alloc::Global;

/// How many tests, cases, points without one and skipped entries there are. A number stands at
/// 2^64 - 1 where it would be greater.
#[derive(Clone, Copy)]
pub struct Totals {
    pub tests: u64,
    pub cases: u64,
    pub unsolved: u64,
    pub skipped: u64,
}

fn push_point(
    alloc: Global,
    text: &mut Text,
    case: Option<usize>,
    point: &Point,
) -> Result<(), NoMemory>
    ensures { OnOk result (text.new ≡ text.old ++ spec.point_line case (point_view point.now)) }
{
    let kind = point.kind.name();
    let key = point.key.as_str();
    let line = match case {
        None => format!(in alloc; "unsolved {kind} {key}\n"),
        Some(case) => format!(in alloc; "case {case} {kind} {key}\n"),
    }?;
    text.push_str(line.as_str())
}

/// Adds the points in their order, each with its case or without. The claims are in the order of
/// their points.
#[tactic(auto, using(crate::proofs::Listings::lines_more, crate::proofs::Listings::lines_all))]
fn push_points(
    alloc: Global,
    text: &mut Text,
    claims: &[Claim],
    points: &[Point],
) -> Result<(), NoMemory>
    ensures { OnOk result (text.new
        ≡ text.old ++ spec.point_lines claims.now 0 (map point_view points.now)) }
{
    let mut rest = claims;
    for (place, point) in points.iter().enumerate() {
        push_point(alloc, text, case_at(rest, place), point)?;
        rest = claims_after(rest, place);
    }
    Ok(())
}

fn push_steps(alloc: Global, text: &mut Text, made: &Made) -> Result<(), NoMemory>
    ensures { OnOk result (text.new ≡ text.old ++ spec.steps_line made.now.text made.now.steps) }
{
    if made.text.is_none() {
        return Ok(());
    }
    let steps = made.steps;
    let line = format!(in alloc; "steps {steps}\n")?;
    text.push_str(line.as_str())
}

/// Adds a label with what was made of it.
///
/// # Errors
///
/// [`NoMemory`].
pub fn push_made(alloc: Global, text: &mut Text, label: &Label, made: &Made) -> Result<(), NoMemory>
    ensures { OnOk result (text.new ≡ text.old
        ++ spec.made_text (label_view label.now) made.now.claims made.now.text made.now.steps) }
{
    text.push_str("label ")?;
    text.push_str(label.name.as_str())?;
    text.push_str("\n")?;
    push_points(alloc, text, made.claims.as_slice(), label.points.as_slice())?;
    push_skipped(alloc, text, label.skipped.as_slice())?;
    push_steps(alloc, text, made)
}

impl Totals {
    /// Adds what was made of a label.
    pub fn add(&mut self, label: &Label, made: &Made)
        ensures { totals_view self.new ≡ spec.with_made (totals_view self.old)
            (label_view label.now) made.now.claims made.now.unsolved made.now.text }
    {
        let tests = if made.text.is_some() { 1 } else { 0 };
        self.tests = self.tests.saturating_add(tests);
        self.cases = self
            .cases
            .saturating_add(made.claims.as_slice().len() as u64);
        self.unsolved = self
            .unsolved
            .saturating_add(made.unsolved.as_slice().len() as u64);
        self.skipped = self
            .skipped
            .saturating_add(label.skipped.as_slice().len() as u64);
    }
}

/// Adds the last line.
///
/// # Errors
///
/// [`NoMemory`].
pub fn push_total(alloc: Global, text: &mut Text, totals: &Totals) -> Result<(), NoMemory>
    ensures { OnOk result (text.new ≡ text.old ++ spec.total_line (totals_view totals.now)) }
{
    let Totals {
        tests,
        cases,
        unsolved,
        skipped,
    } = *totals;
    let line = format!(in alloc;
        "total {tests} tests, {cases} cases, {unsolved} unsolved, {skipped} skipped\n"
    )?;
    text.push_str(line.as_str())
}
