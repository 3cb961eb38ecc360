// The test of a label.
ghost use Rattle.std.specs.Prelude.{◌≡◌, ◌≤◌, ◌<◌, ◌+◌, ◌*◌, ◌^◌, ℕ, false, length, map, Contains};
ghost use Rattle.std.specs.Prelude.{IfOk, IfSome, IsTrue, Some, pos, unwrap_or};
ghost use Rattle.rvs_points.specs.PointView.{label_view};
ghost use Rattle.rvs_points.specs.Valid.{IsValid};
ghost use Rattle.rvs_solver.specs.Solving.{IsSolvableAt, bound_of_label};
ghost use Rattle.rvs_test_text.specs.TestText as layout;
ghost use Rattle.rvs_test.specs.Made as made;
ghost use Rattle.rvs_test.specs.Made.{claims_of, unsolved_of, cases_of, text_for, text_of_label};
ghost use Rattle.rvs_test.specs.Made.{named_at};
ghost use Rattle.rvs_test.specs.Claimed.{TestRuns, IsAccounted};
ghost use Rattle.rvs_test.specs.Named.{claims_read, named_claim};
ghost use Rattle.rvs_points.specs.Limits.{most_points};

use crate::finding::{Found, find_cases};
use crate::made::Made;
use crate::writing::{push_claims, push_code, push_data, push_front};
use rvs_base::{NoMemory, Text, beside, release};
use rvs_expr::Steps;
use rvs_insn::{Format, IsaSpec, format};
use rvs_points::Label;
use rvs_solver::Solved;
use rvs_test_text::Claim;
use std::alloc::Global;
use std::sync::ledger::Ledger;

fn jump_steps(form: Format, imm: i32) -> u64
    ensures value { result ≡ layout.jump_steps form imm }
    ensures low { result ≤ 2 ^ 32 }
{
    match form {
        Format::Branch | Format::Jump => 32 + u64::from(imm.unsigned_abs() / 4),
        _ => 32,
    }
}

/// How many instructions a case takes at most.
fn case_steps(solved: &Solved) -> u64
    ensures value { result ≡ layout.case_steps solved.now }
    ensures low { result ≤ 2 ^ 32 }
{
    match solved {
        Solved::One(choice) => jump_steps(format(choice.op), choice.imm.unwrap_or(0)),
        Solved::Many(_) => 32,
    }
}

/// How many instructions a test takes at most.
fn step_limit(cases: &[Solved]) -> u64
    requires { length cases.now ≤ most_points }
    ensures { result ≡ layout.step_limit cases.now }
{
    let mut steps = 80;
    for solved in cases {
        steps += case_steps(solved);
    }
    steps
}

/// The text of a test that has a case.
fn test_text(
    alloc: Global,
    label: &Label,
    spec: &IsaSpec,
    claims: &[Claim],
    cases: &[Solved],
    steps: u64,
) -> Result<Text, NoMemory>
    requires valid { IsValid spec.now (label_view label.now) }
    requires claims { claims.now ≡ claims_of spec.now (label_view label.now) }
    requires cases { cases.now ≡ cases_of spec.now (label_view label.now) }
    requires steps { steps ≡ layout.step_limit cases.now }
    ensures text { IfOk result (λ text. text ≡ layout.test_text label.now.name spec.now
        (map (λ c. named_at (label_view label.now) c.point) claims.now) cases.now) }
    ensures runs { IfOk result (λ text. IsTrue (made.has_room spec.now (label_view label.now))
        → TestRuns spec.now (label_view label.now) text claims.now steps) }
    ensures read { IfOk result (λ text.
        claims_read text ≡ Some (map (named_claim (label_view label.now)) claims.now)) }
{
    // That the memory has room at all is an invariant of its type, which this call brings.
    let _limit = spec.memory.text_limit();
    let registers = if spec.e { 15 } else { 31 };
    let mut out = Text::new(alloc);
    push_front(alloc, &mut out, label.name.as_str(), spec, steps)?;
    push_claims(alloc, &mut out, label, claims)?;
    push_code(alloc, &mut out, spec, registers, cases)?;
    push_data(alloc, &mut out, cases.len())?;
    Ok(out)
}

/// The text, where there is a case.
fn text_for(
    alloc: Global,
    label: &Label,
    spec: &IsaSpec,
    claims: &[Claim],
    cases: &[Solved],
    steps: u64,
) -> Result<Option<Text>, NoMemory>
    requires valid { IsValid spec.now (label_view label.now) }
    requires claims { claims.now ≡ claims_of spec.now (label_view label.now) }
    requires cases { cases.now ≡ cases_of spec.now (label_view label.now) }
    requires steps { steps ≡ layout.step_limit cases.now }
    ensures text { IfOk result (λ text. text ≡ text_for spec.now (label_view label.now) cases.now) }
    ensures runs { IfOk result (λ text. IfSome text (λ bytes.
        IsTrue (made.has_room spec.now (label_view label.now))
        → TestRuns spec.now (label_view label.now) bytes claims.now steps)) }
    ensures read { IfOk result (λ text. IfSome text (λ bytes.
        claims_read bytes ≡ Some (map (named_claim (label_view label.now)) claims.now))) }
{
    if cases.is_empty() {
        return Ok(None);
    }
    let text = test_text(alloc, label, spec, claims, cases, steps)?;
    Ok(Some(text))
}

/// The test of a label that is valid for the core: for each of its points, in their order, the
/// first choice that hits it becomes a case.
///
/// Where the core's regions have room for it, its run halts within its steps. Each claim is true:
/// exactly one instruction is executed at the symbol of the case, and it hits the point. The
/// signature has two words for each case, which are the case's outcome, and no others. The points
/// that are left are those that no choice hits.
///
/// The text says itself what it claims: who reads the lines of it that begin `#! case `, each with
/// a decimal number, a kind up to the next space, and a key up to the end of the line, has the case
/// and the point of each claim, in order, and nothing else.
///
/// # Errors
///
/// [`NoMemory`] alone. The bound on evaluations holds then too.
pub fn make_test<L: Ledger>(
    alloc: Global,
    label: &Label,
    spec: &IsaSpec,
    steps: &mut Steps<L>,
) -> Result<Made, NoMemory>
    requires { IsValid spec.now (label_view label.now) }
    ensures text { IfOk result (λ m. m.text ≡ text_of_label spec.now (label_view label.now)) }
    ensures claims { IfOk result (λ m. m.claims ≡ claims_of spec.now (label_view label.now)) }
    ensures unsolved { IfOk result (λ m. m.unsolved ≡ unsolved_of spec.now (label_view label.now)) }
    ensures steps { IfOk result (λ m.
        m.steps ≡ layout.step_limit (cases_of spec.now (label_view label.now))) }
    ensures runs { IfOk result (λ m. IfSome m.text (λ text.
        IsTrue (made.has_room spec.now (label_view label.now))
        → TestRuns spec.now (label_view label.now) text m.claims m.steps)) }
    ensures read { IfOk result (λ m. IfSome m.text (λ text.
        claims_read text ≡ Some (map (named_claim (label_view label.now)) m.claims))) }
    ensures accounted { IfOk result (λ m. (k : ℕ) → k < length label.now.points →
        IsAccounted spec.now (label_view label.now) m.claims m.unsolved k) }
    ensures unsolvable { IfOk result (λ m. (k : ℕ) → Contains m.unsolved k →
        IsSolvableAt spec.now (label_view label.now) k → ⊥) }
    ensures cost { steps.new ≤ steps.old + bound_of_label spec.now (label_view label.now) }
{
    let found = find_cases(alloc, label, spec, steps)?;
    let limit = step_limit(found.cases.as_slice());
    let text = text_for(
        alloc,
        label,
        spec,
        found.claims.as_slice(),
        found.cases.as_slice(),
        limit,
    );
    let (text, found) = beside(text, found)?;
    let Found {
        cases,
        claims,
        unsolved,
    } = found;
    release(cases);
    Ok(Made {
        text,
        claims,
        unsolved,
        steps: limit,
    })
}
