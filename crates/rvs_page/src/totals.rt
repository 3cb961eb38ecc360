// The numbers of labels.
ghost use Rattle.std.specs.Prelude.{◌≡◌};
ghost use Rattle.rvs_page.specs.Shown as spec;

use crate::shown::{Label, State, Verdict};

pub fn is_test(state: State) -> bool
    ensures { result ≡ spec.is_test state }
{
    !matches!(state, State::NoTest)
}

pub fn passes(state: State) -> bool
    ensures { result ≡ spec.passes state }
{
    matches!(state, State::Pass { .. })
}

/// Whether no device was judged by this test.
pub fn is_open(state: State) -> bool
    ensures { result ≡ spec.is_open state }
{
    matches!(state, State::NotRun | State::OtherTest)
}

pub fn fails(state: State) -> bool
    ensures { result ≡ spec.fails state }
{
    match state {
        State::NoTest | State::NotRun | State::OtherTest | State::Pass { .. } => false,
        _ => true,
    }
}

/// The verdict on all tests.
#[tactic(auto, unfolding(crate::specs::Shown::verdict_of))]
pub fn verdict_of(labels: &[Label]) -> Verdict
    ensures { result ≡ spec.verdict_of labels.now }
{
    let mut verdict = Verdict::Pass;
    for label in labels {
        if fails(label.state) {
            return Verdict::Fail;
        }
        if is_open(label.state) {
            verdict = Verdict::Incomplete;
        }
    }
    verdict
}

/// How many points have a case.
#[tactic(auto, unfolding(crate::specs::Shown::tested))]
pub fn tested(label: &Label) -> usize
    ensures { result ≡ spec.tested label.now }
{
    let points = label.points.as_slice();
    points.iter().filter(|point| point.case.is_some()).count()
}

/// How many points no choice hits.
#[tactic(auto, unfolding(crate::specs::Shown::unsolved))]
pub fn unsolved(label: &Label) -> usize
    ensures { result ≡ spec.unsolved label.now }
{
    label.points.as_slice().len() - tested(label)
}

/// How many points the logs hit.
#[tactic(auto, unfolding(crate::specs::Shown::hit))]
pub fn hit(label: &Label) -> usize
    ensures { result ≡ spec.hit label.now }
{
    label
        .points
        .as_slice()
        .iter()
        .filter(|point| point.hits != 0)
        .count()
}

/// How many they don't hit.
#[tactic(auto, unfolding(crate::specs::Shown::missed))]
pub fn missed(label: &Label) -> usize
    ensures { result ≡ spec.missed label.now }
{
    label.points.as_slice().len() - hit(label)
}

/// The numbers of all labels. One stands at 2^64 - 1 where it would be greater.
#[derive(Drop, Clone, Copy)]
pub struct Totals {
    pub tests: u64,
    pub passed: u64,
    pub failed: u64,
    pub open_tests: u64,
    pub tested: u64,
    pub unsolved: u64,
    pub skipped: u64,
    pub hit: u64,
}

fn with_label(t: Totals, label: &Label) -> Totals
    ensures { result ≡ spec.with_label t label.now }
{
    let state = label.state;
    Totals {
        tests: t.tests.saturating_add(u64::from(is_test(state))),
        passed: t.passed.saturating_add(u64::from(passes(state))),
        failed: t.failed.saturating_add(u64::from(fails(state))),
        open_tests: t.open_tests.saturating_add(u64::from(is_open(state))),
        tested: t.tested.saturating_add(tested(label) as u64),
        unsolved: t.unsolved.saturating_add(unsolved(label) as u64),
        skipped: t
            .skipped
            .saturating_add(label.skipped.as_slice().len() as u64),
        hit: t.hit.saturating_add(hit(label) as u64),
    }
}

/// The numbers of all labels.
#[tactic(auto, unfolding(crate::specs::Shown::totals_of))]
pub fn totals_of(labels: &[Label]) -> Totals
    ensures { result ≡ spec.totals_of labels.now }
{
    let mut totals = Totals {
        tests: 0,
        passed: 0,
        failed: 0,
        open_tests: 0,
        tested: 0,
        unsolved: 0,
        skipped: 0,
        hit: 0,
    };
    for label in labels {
        totals = with_label(totals, label);
    }
    totals
}
