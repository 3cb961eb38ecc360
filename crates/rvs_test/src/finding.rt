// The first choices of a label's points.
ghost use Rattle.std.specs.Prelude.{◌≡◌, ◌≤◌, ◌<◌, ◌+◌, ◌++◌, ◌∷◌, [], IfOk, OnOk, length, take};
ghost use Rattle.std.specs.Prelude.{option_to_list, sum_by};
ghost use Rattle.std.specs.List.{range_with_len};
ghost use Rattle.rvs_points.specs.PointView.{label_view, point_view};
ghost use Rattle.rvs_points.specs.Valid.{IsValid};
ghost use Rattle.rvs_solver.specs.Solving.{first_at, bound_of_label};
ghost use Rattle.rvs_test.specs.Made.{places, claims_of, unsolved_of, cases_of};
ghost use Rattle.rvs_test.specs.Found.{FoundValue, found_view, found_before, nothing_found};
ghost use Rattle.rvs_test.specs.Found.{with_one};

use rvs_base::{Items, NoMemory, beside};
use rvs_expr::Steps;
use rvs_insn::IsaSpec;
use rvs_points::Label;
use rvs_solver::{Solved, solve};
use rvs_test_text::Claim;
use std::alloc::Global;
use std::sync::ledger::Ledger;

/// What solves the points that were looked at.
#[derive(Drop)]
pub(crate) struct Found {
    /// What the cases are made from.
    pub cases: Items<Solved>,
    /// Which points they are to hit.
    pub claims: Items<Claim>,
    /// The other points.
    pub unsolved: Items<usize>,
}

fn nothing(alloc: Global) -> Found
    ensures { found_view result ≡ nothing_found }
{
    Found {
        cases: Items::new(alloc),
        claims: Items::new(alloc),
        unsolved: Items::new(alloc),
    }
}

/// Adds a point, with what solves it.
fn add_point(found: &mut Found, point: usize, solved: Option<Solved>) -> Result<(), NoMemory>
    ensures { OnOk result (
        found_view found.new ≡ with_one (found_view found.old) point solved) }
{
    match solved {
        Some(solved) => {
            let case = found.claims.as_slice().len();
            found.cases.push(solved)?;
            found.claims.push(Claim { case, point })?;
        }
        None => found.unsolved.push(point)?,
    }
    Ok(())
}

/// Adds the points of a label, in their order.
fn add_points<L: Ledger>(
    alloc: Global,
    label: &Label,
    spec: &IsaSpec,
    steps: &mut Steps<L>,
    found: &mut Found,
) -> Result<(), NoMemory>
    requires valid { IsValid spec.now (label_view label.now) }
    requires none { found_view found.old ≡ nothing_found }
    ensures found { OnOk result (found_view found.new
        ≡ found_before spec.now (label_view label.now) (length (label_view label.now).points)) }
    ensures cost { steps.new ≤ steps.old + bound_of_label spec.now (label_view label.now) }
{
    for point in 0..label.points.as_slice().len() {
        let solved = solve(alloc, label, point, spec, steps)?;
        add_point(found, point, solved)?;
    }
    Ok(())
}

/// What solves the points of a label, in their order.
pub(crate) fn find_cases<L: Ledger>(
    alloc: Global,
    label: &Label,
    spec: &IsaSpec,
    steps: &mut Steps<L>,
) -> Result<Found, NoMemory>
    requires { IsValid spec.now (label_view label.now) }
    ensures cases { IfOk result (λ f. f.cases ≡ cases_of spec.now (label_view label.now)) }
    ensures claims { IfOk result (λ f. f.claims ≡ claims_of spec.now (label_view label.now)) }
    ensures unsolved { IfOk result (λ f. f.unsolved ≡ unsolved_of spec.now (label_view label.now)) }
    ensures cost { steps.new ≤ steps.old + bound_of_label spec.now (label_view label.now) }
{
    let mut found = nothing(alloc);
    let ((), found) = beside(add_points(alloc, label, spec, steps, &mut found), found)?;
    Ok(found)
}
