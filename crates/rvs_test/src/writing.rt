// The text of a test.
ghost use Rattle.std.specs.Prelude.{◌≡◌, ◌<◌, ◌≤◌, ◌+◌, ◌++◌, ◌∷◌, [], All, IfOk, OnOk};
ghost use Rattle.std.specs.Prelude.{MatchOption, Some, length, map, false, codes};
ghost use Rattle.rvs_points.specs.PointView.{label_view, point_view};
ghost use Rattle.rvs_test_text.specs.TestText as layout;
ghost use Rattle.rvs_test_text.specs.TestText.{text_of, ended};
ghost use Rattle.rvs_test_text.specs.Claim.{IsReady, AreReady};
ghost use Rattle.rvs_test.specs.Made.{named, named_at};
ghost use Rattle.rvs_points.specs.Limits.{most_points};

use crate::case_lines::case_statements;
use crate::printing::{push_line, push_statements};
use crate::shorthands::{addi, jal, sw};
use rvs_base::{NoMemory, Text};
use rvs_insn::{IsaSpec, isa_text};
use rvs_points::{Label, Point};
use rvs_solver::Solved;
use rvs_test_text::{Claim, Fixed, Name, Statement};
use std::alloc::Global;

fn begin() -> [Statement; 5]
    ensures { result ≡ layout.begin }
{
    [
        Statement::Fixed(Fixed::NoRvc),
        Statement::Fixed(Fixed::NoRelax),
        Statement::Fixed(Fixed::ToText),
        Statement::Fixed(Fixed::Globl),
        Statement::Label(Name::Start),
    ]
}

fn fixed_data() -> [Statement; 11]
    ensures { result ≡ layout.fixed_data }
{
    [
        Statement::Fixed(Fixed::ToData),
        Statement::Fixed(Fixed::Align),
        Statement::Label(Name::Scratch),
        Statement::Fixed(Fixed::Zeros),
        Statement::Label(Name::Pattern),
        Statement::Fixed(Fixed::FirstPattern),
        Statement::Fixed(Fixed::SecondPattern),
        Statement::Label(Name::ToHost),
        Statement::Fixed(Fixed::Zeros),
        Statement::Fixed(Fixed::Align),
        Statement::Label(Name::BeginSignature),
    ]
}

/// The halt, and the endless loop behind it.
fn halt() -> [Statement; 6]
    ensures { result ≡ layout.halt ++ layout.loop }
{
    [
        Statement::High(15, Name::ToHost),
        Statement::Low(15, Name::ToHost),
        Statement::Plain(addi(14, 0, 1)),
        Statement::Plain(sw(14, 15, 0)),
        Statement::Label(Name::Halt),
        Statement::To(jal(), Name::Halt),
    ]
}

fn claim_line(alloc: Global, case: usize, point: &Point) -> Result<Text, NoMemory>
    ensures { IfOk result (λ text. text ≡ layout.claim_line case (named (point_view point.now))) }
{
    let kind = point.kind.name();
    let key = point.key.as_str();
    Ok(Text::from(format!(in alloc; "#! case {case} {kind} {key}")?))
}

fn front_lines(alloc: Global, name: &str, isa: &str, steps: u64) -> Result<Text, NoMemory>
    ensures { IfOk result (λ text. text ≡ codes "#! rvsuite test 1\n#! label " ++ (name.now
        ++ (codes "\n#! isa " ++ (isa.now ++ (10 ∷ (layout.steps_line steps ++ 10 ∷ [])))))) }
{
    let lines = format!(in alloc;
        "#! rvsuite test 1\n#! label {name}\n#! isa {isa}\n#! steps {steps}\n"
    )?;
    Ok(Text::from(lines))
}

/// Adds the first four lines.
pub(crate) fn push_front(
    alloc: Global,
    out: &mut Text,
    name: &str,
    spec: &IsaSpec,
    steps: u64,
) -> Result<(), NoMemory>
    ensures { OnOk result (out.new ≡ out.old ++ ended (layout.front name.now spec.now steps)) }
{
    let isa = isa_text(alloc, spec)?;
    let lines = front_lines(alloc, name, isa.as_str(), steps)?;
    out.push_str(lines.as_str())
}

/// One line for each claim.
pub(crate) fn push_claims(
    alloc: Global,
    out: &mut Text,
    label: &Label,
    claims: &[Claim],
) -> Result<(), NoMemory>
    requires { All (λ c. c.point < length label.now.points) claims.now }
    ensures { OnOk result (out.new ≡ out.old ++
        ended (map (layout.line_of_claim (named_at (label_view label.now))) claims.now)) }
{
    for claim in claims {
        let point = &label.points.as_slice()[claim.point];
        let line = claim_line(alloc, claim.case, point)?;
        push_line(out, line.as_str())?;
    }
    Ok(())
}

/// So many registers from x1 on get 0.
fn push_clear(alloc: Global, out: &mut Text, count: u8) -> Result<(), NoMemory>
    requires { count < 32 }
    ensures { OnOk result (out.new ≡ out.old ++ text_of (layout.clear 1 count)) }
{
    for n in 0..count {
        push_statements(alloc, out, &[Statement::Plain(addi(1 + n, 0, 0))])?;
    }
    Ok(())
}

fn push_case(
    alloc: Global,
    out: &mut Text,
    _spec: &IsaSpec,
    k: usize,
    solved: &Solved,
) -> Result<(), NoMemory>
    requires few { k < most_points }
    requires ready { IsReady _spec.now solved.now }
    ensures { OnOk result (out.new ≡ out.old ++ text_of (layout.case_statements k solved.now)) }
{
    let statements = case_statements(alloc, k as u32, solved)?;
    push_statements(alloc, out, statements.as_slice())
}

fn push_cases(
    alloc: Global,
    out: &mut Text,
    spec: &IsaSpec,
    cases: &[Solved],
) -> Result<(), NoMemory>
    requires few { length cases.now ≤ most_points }
    requires ready { AreReady spec.now cases.now }
    ensures { OnOk result (out.new ≡ out.old ++ text_of (layout.cases 0 cases.now)) }
{
    for (k, solved) in cases.iter().enumerate() {
        push_case(alloc, out, spec, k, solved)?;
    }
    Ok(())
}

fn push_slots(alloc: Global, out: &mut Text, count: usize) -> Result<(), NoMemory>
    requires { count ≤ most_points }
    ensures { OnOk result (out.new ≡ out.old ++ text_of (layout.slots 0 count)) }
{
    for k in 0..count {
        let slot = Statement::Label(Name::Slot(k as u32));
        push_statements(alloc, out, &[slot, Statement::Fixed(Fixed::Unset)])?;
    }
    Ok(())
}

/// The cases, with what stands before and behind them.
pub(crate) fn push_code(
    alloc: Global,
    out: &mut Text,
    spec: &IsaSpec,
    registers: u8,
    cases: &[Solved],
) -> Result<(), NoMemory>
    requires few { length cases.now ≤ most_points }
    requires ready { AreReady spec.now cases.now }
    requires registers { registers ≡ layout.last_register spec.now }
    requires low { registers < 32 }
    ensures { OnOk result (out.new ≡ out.old ++
        text_of (layout.begin ++ layout.code_part spec.now cases.now)) }
{
    push_statements(alloc, out, &begin())?;
    push_clear(alloc, out, registers)?;
    push_cases(alloc, out, spec, cases)?;
    push_statements(alloc, out, &halt())
}

/// The data of so many cases.
pub(crate) fn push_data(alloc: Global, out: &mut Text, count: usize) -> Result<(), NoMemory>
    requires { count ≤ most_points }
    ensures { OnOk result (out.new ≡ out.old ++ text_of (layout.data_part count)) }
{
    push_statements(alloc, out, &fixed_data())?;
    push_slots(alloc, out, count)?;
    push_statements(alloc, out, &[Statement::Label(Name::EndSignature)])
}
