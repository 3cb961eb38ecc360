// The first choice that hits a point.
ghost use Rattle.std.specs.Prelude.{◌≡◌, [], ◌+◌, ◌*◌, ◌≤◌, ◌<◌, length, option_map, true, false};
ghost use Rattle.std.specs.Prelude.{IfOk, IfNone, IfSome, find, flat_map, sum_by};
ghost use Rattle.rvs_cross.specs.CrossView.{cross_view};
ghost use Rattle.rvs_sequences.specs.Sequences.{first_sequence};
ghost use Rattle.rvs_sequences.specs.Sequences as sequences;
ghost use Rattle.rvs_points.specs.PointView.{meaning_view, point_view, label_view};
ghost use Rattle.rvs_points.specs.Valid.{IsValid};
ghost use Rattle.rvs_solver.specs.Choices.{choices};
ghost use Rattle.rvs_solver.specs.Point.{hits, is_valid, is_on_values, constants_of};
ghost use Rattle.rvs_solver.specs.First.{first_choice, Solvable};
ghost use Rattle.rvs_solver.specs.Solving.{first_at, first_meant, bound_at, bound_meant};
ghost use Rattle.rvs_solver.specs.Solving.{IsLeastAt, IsLeastChoice, IsWindow, SolvesAs};
ghost use Rattle.rvs_solver.specs.Solving.{IsSolvableAs, IsSolvableAt, HaveOneWordEach};
ghost use Rattle.rvs_solver.specs.Bound.{bound_of, bound};

use crate::orders::{rds, rs1s, rs2s};
use crate::registers::RegisterSearch;
use crate::values::first_value;
use rvs_base::NoMemory;
use rvs_choice::{Choice, Solved};
use rvs_cross::Cross;
use rvs_expr::Steps;
use rvs_insn::{Format, IsaSpec, Op, format};
use rvs_points::{Kind, Label, Meaning, Point};
use rvs_sequences::solve_cross;
use std::alloc::Global;
use std::sync::ledger::Ledger;

/// What solves a point of a label: the first choice, in the order of the datasets, that hits it,
/// and for a cross point the first instructions that match it; none exactly where nothing does.
///
/// The point is named by its place in the label, which is valid for the core. No list of choices
/// is made, so the memory doesn't depend on how many there are.
///
/// # Errors
///
/// [`NoMemory`] alone. The bound on evaluations holds then too.
pub fn solve<L: Ledger>(
    alloc: Global,
    label: &Label,
    point: usize,
    spec: &IsaSpec,
    steps: &mut Steps<L>,
) -> Result<Option<Solved>, NoMemory>
    requires point { point < length label.now.points }
    requires valid { IsValid spec.now (label_view label.now) }
    ensures first { IfOk result (λ s. s ≡ first_at spec.now (label_view label.now) point) }
    ensures least { IfOk result (λ s. IfSome s (IsLeastAt spec.now (label_view label.now) point)) }
    ensures none { IfOk result (λ s. IfNone s (IsSolvableAt spec.now (label_view label.now) point →
        ⊥)) }
    ensures words { IfOk result (λ s. IfSome s HaveOneWordEach) }
    ensures cost { steps.new ≤ steps.old + bound_at spec.now (label_view
        label.now) point }
{
    let point = &label.points.as_slice()[point];
    solve_meant(alloc, label.ops.as_slice(), point, spec, steps)
}

/// What solves a point over some mnemonics.
fn solve_meant<L: Ledger>(
    alloc: Global,
    ops: &[Op],
    point: &Point,
    spec: &IsaSpec,
    steps: &mut Steps<L>,
) -> Result<Option<Solved>, NoMemory>
    requires { is_valid (meaning_view point.now.meaning) ≡ true }
    ensures first { IfOk result (λ s. s ≡ first_meant spec.now ops.now point.now.kind (meaning_view
        point.now.meaning)) }
    ensures least { IfOk result (λ s. IfSome s (SolvesAs spec.now ops.now (point_view point.now)
        (meaning_view point.now.meaning))) }
    ensures none { IfOk result (λ s. IfNone s (IsSolvableAs spec.now ops.now point.now.kind
        (meaning_view point.now.meaning) → ⊥)) }
    ensures words { IfOk result (λ s. IfSome s HaveOneWordEach) }
    ensures cost { steps.new ≤ steps.old + bound_meant spec.now ops.now
        (meaning_view point.now.meaning) }
{
    match &point.meaning {
        Meaning::Window(cross) => solve_window(alloc, cross, spec, steps),
        _ => solve_choice(alloc, ops, point, spec, steps),
    }
}

/// What solves a cross point.
fn solve_window<L: Ledger>(
    alloc: Global,
    cross: &Cross,
    spec: &IsaSpec,
    steps: &mut Steps<L>,
) -> Result<Option<Solved>, NoMemory>
    ensures first { IfOk result (λ s. s ≡ option_map Solved.Many (first_sequence spec.now
        (cross_view cross.now))) }
    ensures least { IfOk result (λ s. IfSome s (IsWindow spec.now (cross_view cross.now))) }
    ensures none { IfOk result (λ s. IfNone s (sequences.Solvable spec.now (cross_view cross.now) →
        ⊥)) }
    ensures words { IfOk result (λ s. IfSome s HaveOneWordEach) }
    ensures cost { steps.new ≤ steps.old + sequences.bound spec.now (cross_view
        cross.now) }
{
    match solve_cross(alloc, cross, spec, steps)? {
        Some(insns) => Ok(Some(Solved::Many(insns))),
        None => Ok(None),
    }
}

/// The first choice that hits a point that one instruction hits.
#[tactic(auto, unfolding(crate::specs::Bound::bound))]
fn solve_choice<L: Ledger>(
    alloc: Global,
    ops: &[Op],
    point: &Point,
    spec: &IsaSpec,
    steps: &mut Steps<L>,
) -> Result<Option<Solved>, NoMemory>
    requires { is_valid (meaning_view point.now.meaning) ≡ true }
    ensures first { IfOk result (λ s. s ≡ option_map Solved.One (first_choice spec.now ops.now
        point.now.kind (meaning_view point.now.meaning))) }
    ensures least { IfOk result (λ s. IfSome s (IsLeastChoice spec.now ops.now (point_view
        point.now))) }
    ensures none { IfOk result (λ s. IfNone s (Solvable spec.now ops.now point.now.kind
        (meaning_view point.now.meaning) → ⊥)) }
    ensures words { IfOk result (λ s. IfSome s HaveOneWordEach) }
    ensures cost { steps.new ≤ steps.old + bound spec.now ops.now (meaning_view
        point.now.meaning) }
{
    match first_of_ops(alloc, ops, point.kind, &point.meaning, spec, steps)? {
        Some(choice) => Ok(Some(Solved::One(choice))),
        None => Ok(None),
    }
}

/// The first choice over some mnemonics that hits a point.
fn first_of_ops<L: Ledger>(
    alloc: Global,
    ops: &[Op],
    kind: Kind,
    meaning: &Meaning,
    spec: &IsaSpec,
    steps: &mut Steps<L>,
) -> Result<Option<Choice>, NoMemory>
    requires { is_valid (meaning_view meaning.now) ≡ true }
    ensures first { IfOk result (λ c. c ≡ find (hits kind (meaning_view meaning.now)) (flat_map (λ
        op. choices spec.now op (constants_of (meaning_view meaning.now))) ops.now)) }
    ensures cost { steps.new ≤ steps.old + sum_by (bound_of spec.now (meaning_view
        meaning.now)) ops.now }
{
    for op in ops {
        match first_of_op(alloc, *op, kind, meaning, spec, steps)? {
            Some(choice) => return Ok(Some(choice)),
            None => {},
        }
    }
    Ok(None)
}

/// The first choice of one mnemonic that hits the point.
fn first_of_op<L: Ledger>(
    alloc: Global,
    op: Op,
    kind: Kind,
    meaning: &Meaning,
    spec: &IsaSpec,
    steps: &mut Steps<L>,
) -> Result<Option<Choice>, NoMemory>
    requires { is_valid (meaning_view meaning.now) ≡ true }
    ensures first { IfOk result (λ c. c ≡ find (hits kind (meaning_view meaning.now)) (choices
        spec.now op (constants_of (meaning_view meaning.now)))) }
    ensures cost { steps.new ≤ steps.old + bound_of spec.now (meaning_view
        meaning.now) op }
{
    match meaning {
        Meaning::Nums(expr) => first_value(alloc, expr, op, spec, steps),
        Meaning::OpIs(_) | Meaning::RegIs(_) | Meaning::Regs(_) | Meaning::Window(_) => {
            Ok(first_of_registers(op, kind, meaning, spec, steps))
        },
    }
}

/// The same for a point on the mnemonic or on registers.
fn first_of_registers<L: Ledger>(
    op: Op,
    kind: Kind,
    meaning: &Meaning,
    spec: &IsaSpec,
    steps: &mut Steps<L>,
) -> Option<Choice>
    requires valid { is_valid (meaning_view meaning.now) ≡ true }
    requires registers { is_on_values (meaning_view meaning.now) ≡ false }
    ensures first { result ≡ find (hits kind (meaning_view meaning.now)) (choices spec.now op []) }
    ensures cost { steps.new ≤ steps.old + bound_of spec.now (meaning_view meaning.now) op }
{
    let form = format(op);
    match form {
        Format::System => None,
        _ => {
            let search = RegisterSearch {
                memory: spec.memory,
                kind,
                meaning,
                op,
                rds: rds(spec, form),
                rs1s: rs1s(spec, form),
                rs2s: rs2s(spec, form),
            };
            search.first(steps)
        },
    }
}
