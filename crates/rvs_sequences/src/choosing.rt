// The search for the first instruction that a place asks for. It passes over registers that an
// assignment excludes.
ghost use Rattle.std.specs.Prelude.{◌≡◌, ◌+◌, ◌*◌, ◌≤◌, [], ◌∷◌, pos, length, flat_map, find, All};
ghost use Rattle.std.specs.Prelude.{Some, None};
ghost use Rattle.rvs_insn.specs.Fields.{IsRegister};
ghost use Rattle.rvs_cross.specs.CrossView.{place_view};
ghost use Rattle.rvs_cross.specs.Windows as windows;
ghost use Rattle.rvs_sequences.specs.Sequences.{at_rs1, at_rd, over_registers, middle, insns_of};
ghost use Rattle.rvs_sequences.specs.Sequences.{listed, candidates, solution, middle_registers};
ghost use Rattle.rvs_sequences.specs.Choosing.{allows_one, allows, admitted_insns};

use rvs_base::Items;
use rvs_cross::{Assignment, Field, Place, Values, fits, same_field, same_register, value_of};
use rvs_expr::Steps;
use rvs_insn::{Format, Insn, IsaSpec, Op, admits_op, all_ops, format};
use std::sync::ledger::Ledger;

/// Whether an assignment doesn't exclude the register from the field.
fn allows_one(values: &Values, field: Field, register: Option<u8>, assignment: &Assignment) -> bool
    ensures { result ≡ allows_one values.now field register assignment.now }
{
    !same_field(field, assignment.field)
        || same_register(value_of(values, assignment.variable), register)
}

fn allows(values: &Values, sets: &[Assignment], field: Field, register: Option<u8>) -> bool
    ensures { result ≡ allows values.now sets.now field register }
{
    sets.iter().all(|assignment| allows_one(values, field, register, assignment))
}

/// The first with one of these `rd`.
#[tactic(auto, unfolding(crate::specs::Sequences::over_registers))]
fn first_over_rds<L: Ledger>(
    values: &Values,
    place: &Place,
    op: Op,
    imm: Option<i32>,
    rds: &[Option<u8>],
    rs1s: &[Option<u8>],
    rs2s: &[Option<u8>],
    steps: &mut Steps<L>,
) -> Option<Insn>
    requires rd { All IsRegister rds.now }
    requires rs1 { All IsRegister rs1s.now }
    requires rs2 { All IsRegister rs2s.now }
    ensures first { result ≡ find (windows.fits values.now (place_view place.now))
        (over_registers op imm rds.now rs1s.now rs2s.now) }
    ensures cost { steps.new ≤ steps.old + length rds.now * (length rs1s.now * length rs2s.now) }
{
    for rd in rds {
        match first_at_rd(values, place, op, imm, *rd, rs1s, rs2s, steps) {
            Some(insn) => return Some(insn),
            None => {},
        }
    }
    None
}

/// The first with this `rd`.
fn first_at_rd<L: Ledger>(
    values: &Values,
    place: &Place,
    op: Op,
    imm: Option<i32>,
    rd: Option<u8>,
    rs1s: &[Option<u8>],
    rs2s: &[Option<u8>],
    steps: &mut Steps<L>,
) -> Option<Insn>
    requires rd { IsRegister rd }
    requires rs1 { All IsRegister rs1s.now }
    requires rs2 { All IsRegister rs2s.now }
    ensures first { result ≡ find (windows.fits values.now (place_view place.now))
        (at_rd op imm rs1s.now rs2s.now rd) }
    ensures cost { steps.new ≤ steps.old + length rs1s.now * length rs2s.now }
{
    if !allows(values, place.sets.as_slice(), Field::Rd, rd) {
        return None;
    }
    for rs1 in rs1s {
        match first_at_rs1(values, place, op, imm, rd, *rs1, rs2s, steps) {
            Some(insn) => return Some(insn),
            None => {},
        }
    }
    None
}

/// The first with this `rd` and this `rs1`.
fn first_at_rs1<L: Ledger>(
    values: &Values,
    place: &Place,
    op: Op,
    imm: Option<i32>,
    rd: Option<u8>,
    rs1: Option<u8>,
    rs2s: &[Option<u8>],
    steps: &mut Steps<L>,
) -> Option<Insn>
    requires rd { IsRegister rd }
    requires rs1 { IsRegister rs1 }
    requires rs2 { All IsRegister rs2s.now }
    ensures first { result ≡ find (windows.fits values.now (place_view place.now))
        (at_rs1 op imm rs2s.now rd rs1) }
    ensures cost { steps.new ≤ steps.old + length rs2s.now }
{
    if !allows(values, place.sets.as_slice(), Field::Rs1, rs1) {
        return None;
    }
    for rs2 in rs2s {
        let insn = Insn {
            op,
            rd,
            rs1,
            rs2: *rs2,
            imm,
        };
        if fits(values, place, &insn, steps) {
            return Some(insn);
        }
    }
    None
}

/// The first of a mnemonic with two sources.
fn first_with_sources<L: Ledger>(
    values: &Values,
    place: &Place,
    op: Op,
    steps: &mut Steps<L>,
) -> Option<Insn>
    ensures first { result ≡ find (windows.fits values.now (place_view place.now))
        (over_registers op None middle middle middle) }
    ensures cost { steps.new ≤ steps.old + length (over_registers op None middle middle middle) }
{
    first_over_rds(values, place, op, None, &MIDDLE, &MIDDLE, &MIDDLE, steps)
}

/// The first of a mnemonic with one source and the immediate 1.
fn first_with_immediate<L: Ledger>(
    values: &Values,
    place: &Place,
    op: Op,
    steps: &mut Steps<L>,
) -> Option<Insn>
    ensures first { result ≡ find (windows.fits values.now (place_view place.now))
        (over_registers op (Some (pos 1)) middle middle (None ∷ [])) }
    ensures cost { steps.new
        ≤ steps.old + length (over_registers op (Some (pos 1)) middle middle (None ∷ [])) }
{
    first_over_rds(
        values,
        place,
        op,
        Some(1),
        &MIDDLE,
        &MIDDLE,
        &NOTHING,
        steps,
    )
}

/// The first of a mnemonic that computes in registers.
fn first_of_op<L: Ledger>(
    values: &Values,
    place: &Place,
    op: Op,
    steps: &mut Steps<L>,
) -> Option<Insn>
    ensures first { result ≡ find (windows.fits values.now (place_view place.now)) (insns_of op) }
    ensures cost { steps.new ≤ steps.old + length (insns_of op) }
{
    match format(op) {
        Format::R => first_with_sources(values, place, op, steps),
        Format::I => first_with_immediate(values, place, op, steps),
        Format::Shift => first_with_immediate(values, place, op, steps),
        _ => None,
    }
}

/// The first of a mnemonic, where the core admits it.
fn first_if_admitted<L: Ledger>(
    values: &Values,
    place: &Place,
    spec: &IsaSpec,
    op: Op,
    steps: &mut Steps<L>,
) -> Option<Insn>
    ensures first { result ≡ find (windows.fits values.now (place_view place.now))
        (admitted_insns spec.now op) }
    ensures cost { steps.new ≤ steps.old + length (admitted_insns spec.now op) }
{
    if admits_op(spec, op) {
        first_of_op(values, place, op, steps)
    } else {
        None
    }
}

/// The first of some mnemonics.
fn first_of_ops<L: Ledger>(
    values: &Values,
    place: &Place,
    spec: &IsaSpec,
    ops: &[Op],
    steps: &mut Steps<L>,
) -> Option<Insn>
    ensures first { result ≡ find (windows.fits values.now (place_view place.now))
        (flat_map (admitted_insns spec.now) ops.now) }
    ensures cost { steps.new ≤ steps.old + length (flat_map (admitted_insns spec.now) ops.now) }
{
    for op in ops {
        match first_if_admitted(values, place, spec, *op, steps) {
            Some(insn) => return Some(insn),
            None => {},
        }
    }
    None
}

/// The mnemonics of a place, all where it lists none.
#[tactic(auto, unfolding(crate::specs::Sequences::listed))]
fn listed(ops: &Option<Items<Op>>) -> &[Op]
    ensures { result.now ≡ listed ops.now }
{
    match ops {
        None => all_ops(),
        Some(ops) => ops.as_slice(),
    }
}

/// The first instruction that a place asks for under some values of the variables.
pub(crate) fn solution<L: Ledger>(
    values: &Values,
    place: &Place,
    spec: &IsaSpec,
    steps: &mut Steps<L>,
) -> Option<Insn>
    ensures first { result ≡ solution spec.now values.now (place_view place.now) }
    ensures cost { steps.new ≤ steps.old + length (candidates spec.now (place_view place.now)) }
{
    first_of_ops(values, place, spec, listed(&place.ops), steps)
}

/// What a variable may stand for: x8 to x15 where a place sets it.
pub(crate) fn choices_for(used: bool) -> &'static [Option<u8>]
    ensures choices { result.now ≡ windows.choices_for middle_registers used }
    ensures registers { All IsRegister result.now }
{
    if used { &MIDDLE } else { &NOTHING }
}

static MIDDLE: [Option<u8>; 8] = [
    Some(8),
    Some(9),
    Some(10),
    Some(11),
    Some(12),
    Some(13),
    Some(14),
    Some(15),
];

static NOTHING: [Option<u8>; 1] = [None];
