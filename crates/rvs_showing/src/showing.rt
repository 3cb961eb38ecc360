// What a page shows of a label.
ghost use Rattle.std.specs.Prelude.{◌≡◌, ◌++◌, ◌∷◌, [], Some, IfOk, OnOk, map, option_map};
ghost use Rattle.std.specs.Prelude.{slice_get};
ghost use Rattle.rvs_base.specs.Lines.{cut_lines};
ghost use Rattle.rvs_points.specs.PointView.{label_view, point_view, skipped_view};
ghost use Rattle.rvs_showing.specs.Showing as spec;

use crate::found::Found;
use rvs_base::{Bytes, Items, NoMemory, Text, first_line};
use rvs_cross::places;
use rvs_page::{Case, Label as ShownLabel, Point as ShownPoint, Skipped as ShownSkipped, State};
use rvs_points::{Label, Meaning, Point, Skipped};
use rvs_test_text::{Claim, case_at, claims_after};
use rvs_words::owned;
use std::alloc::Global;

fn word_at(words: &[u32], at: usize) -> u32
    ensures { result ≡ spec.word_at words.now at }
{
    words.get(at).copied().unwrap_or(0)
}

fn count_at(counts: &[u64], at: usize) -> u64
    ensures { result ≡ spec.word_at counts.now at }
{
    counts.get(at).copied().unwrap_or(0)
}

/// Both words of a case, of which one that isn't there is 0.
fn pair_at(words: &[u32], case: usize) -> (u32, u32)
    ensures { result ≡ spec.pair_at words.now case }
{
    let at = case.saturating_mul(2);
    (word_at(words, at), word_at(words, at.saturating_add(1)))
}

fn differs(found: &Found, case: usize) -> bool
    ensures { result ≡ spec.differs found.now case }
{
    let (core, core_next) = pair_at(found.device.as_slice(), case);
    let (reference, reference_next) = pair_at(found.reference.as_slice(), case);
    core != reference || core_next != reference_next
}

fn case_differs(found: &Found, case: Option<usize>) -> bool
    ensures { result ≡ spec.case_differs found.now case }
{
    match case {
        None => false,
        Some(case) => differs(found, case),
    }
}

fn shown_point(
    alloc: Global,
    found: &Found,
    case: Option<usize>,
    hits: u64,
    point: &Point,
) -> Result<ShownPoint, NoMemory>
    ensures { IfOk result
        (λ shown. shown ≡ spec.shown_point found.now case hits (point_view point.now)) }
{
    Ok(ShownPoint {
        case,
        kind: owned(alloc, point.kind.name())?,
        key: owned(alloc, point.key.as_str())?,
        hits,
        differs: case_differs(found, case),
    })
}

fn shown_points(
    alloc: Global,
    label: &Label,
    claims: &[Claim],
    found: &Found,
    counts: &[u64],
) -> Result<Items<ShownPoint>, NoMemory>
    ensures { IfOk result (λ shown. shown ≡ spec.shown_points found.now counts.now claims.now 0
        (map point_view label.now.points)) }
{
    let mut shown = Items::new(alloc);
    let mut rest = claims;
    for (place, point) in label.points.as_slice().iter().enumerate() {
        let hits = count_at(counts, place);
        shown.push(shown_point(alloc, found, case_at(rest, place), hits, point)?)?;
        rest = claims_after(rest, place);
    }
    Ok(shown)
}

fn shown_skipped(alloc: Global, skipped: &[Skipped]) -> Result<Items<ShownSkipped>, NoMemory>
    ensures { IfOk result
        (λ shown. shown ≡ map spec.shown_skipped (map skipped_view skipped.now)) }
{
    let mut shown = Items::new(alloc);
    for one in skipped {
        let node = owned(alloc, one.node.as_str())?;
        let key = owned(alloc, one.key.as_str())?;
        shown.push(ShownSkipped { node, key })?;
    }
    Ok(shown)
}

/// The text behind the first line that is this.
fn behind<'t>(text: &'t [u8], symbol: &[u8]) -> &'t [u8]
    ensures { cut_lines result.now ≡ spec.behind symbol.now (cut_lines text.now) }
{
    let mut rest = text;
    while let Some((line, after)) = first_line(rest) {
        if line == symbol {
            return after;
        }
        rest = after;
    }
    rest
}

fn without_indent(line: &[u8]) -> &[u8]
    ensures { result.now ≡ spec.without_indent line.now }
{
    let mut rest = line;
    while let [b' ', after @ ..] = rest {
        rest = after;
    }
    rest
}

/// Puts a line, without its indent, behind those before it.
fn push_line(code: &mut Vec<u8>, place: usize, line: &[u8]) -> Result<(), NoMemory>
    ensures { OnOk result (code.new.items ≡ spec.begun place code.old.items
        ++ spec.without_indent line.now) }
{
    if place != 0 {
        code.push(b'\n')?;
    }
    code.extend_from_slice(without_indent(line))?;
    Ok(())
}

/// So many lines, without their indents.
#[tactic(auto, using(crate::proofs::Shows::code_step, crate::proofs::Shows::code_none, crate::proofs::Shows::drop_one, crate::proofs::Shows::drop_none))]
fn lines_of(alloc: Global, text: &[u8], count: usize) -> Result<Bytes, NoMemory>
    ensures { IfOk result (λ code. code ≡ spec.code_of count (cut_lines text.now)) }
{
    let mut code = Vec::new(alloc);
    let mut rest = text;
    for place in 0..count {
        if let Some((line, after)) = first_line(rest) {
            push_line(&mut code, place, line)?;
            rest = after;
        }
    }
    Ok(Items::from(code))
}

/// How many instructions the case of a point has at its symbol.
fn places_of(point: &Point) -> usize
    ensures { result ≡ spec.places_of (point_view point.now).meaning }
{
    match &point.meaning {
        Meaning::Window(cross) => places(cross),
        _ => 1,
    }
}

fn shown_case(
    alloc: Global,
    point: &Point,
    found: &Found,
    case: usize,
    code: &[u8],
) -> Result<Case, NoMemory>
    ensures { IfOk result (λ shown. spec.shown_case found.now case (cut_lines code.now)
        (Some (point_view point.now)) ≡ shown ∷ []) }
{
    Ok(Case {
        number: case,
        kind: owned(alloc, point.kind.name())?,
        key: owned(alloc, point.key.as_str())?,
        code: lines_of(alloc, code, places_of(point))?,
        core: pair_at(found.device.as_slice(), case),
        reference: pair_at(found.reference.as_slice(), case),
    })
}

/// The text behind the symbol of a case.
fn behind_case(alloc: Global, text: &[u8], case: usize) -> Result<&[u8], NoMemory>
    ensures { IfOk result (λ code. cut_lines code.now
        ≡ spec.behind (spec.symbol_of case) (cut_lines text.now)) }
{
    let symbol = Text::from(format!(in alloc; "case_{case}:")?);
    Ok(behind(text, symbol.as_str().as_bytes()))
}

fn push_case(
    alloc: Global,
    shown: &mut Items<Case>,
    label: &Label,
    found: &Found,
    claim: Claim,
    code: &[u8],
) -> Result<(), NoMemory>
    ensures { OnOk result (shown.new ≡ shown.old
        ++ spec.shown_case found.now claim.case (cut_lines code.now)
        (option_map point_view (slice_get label.now.points claim.point))) }
{
    match label.points.as_slice().get(claim.point) {
        None => Ok(()),
        Some(point) => shown.push(shown_case(alloc, point, found, claim.case, code)?),
    }
}

/// The cases of which a word differs. Their symbols stand in the test in their order.
#[tactic(auto, using(crate::proofs::Shows::cases_more, crate::proofs::Shows::cases_same))]
fn shown_cases(
    alloc: Global,
    label: &Label,
    claims: &[Claim],
    found: &Found,
    text: &[u8],
) -> Result<Items<Case>, NoMemory>
    ensures { IfOk result (λ shown. shown ≡ spec.shown_cases found.now
        (map point_view label.now.points) (cut_lines text.now) claims.now) }
{
    let mut shown = Items::new(alloc);
    let mut rest = text;
    for claim in claims {
        if differs(found, claim.case) {
            rest = behind_case(alloc, rest, claim.case)?;
            push_case(alloc, &mut shown, label, found, *claim, rest)?;
        }
    }
    Ok(shown)
}

/// A label that isn't selected.
///
/// # Errors
///
/// [`NoMemory`].
pub fn unselected(alloc: Global, label: &Label) -> Result<ShownLabel, NoMemory>
    ensures { IfOk result (λ shown. shown ≡ spec.shown_unselected (label_view label.now)) }
{
    Ok(ShownLabel {
        name: owned(alloc, label.name.as_str())?,
        selected: false,
        state: State::NoTest,
        cases: Items::new(alloc),
        points: Items::new(alloc),
        skipped: Items::new(alloc),
    })
}

/// A label with what is found of its test.
///
/// # Errors
///
/// [`NoMemory`].
pub fn shown_label(
    alloc: Global,
    label: &Label,
    claims: &[Claim],
    text: &[u8],
    found: &Found,
    counts: &[u64],
) -> Result<ShownLabel, NoMemory>
    ensures { IfOk result (λ shown. shown ≡ spec.shown_label found.now text.now counts.now
        claims.now (label_view label.now)) }
{
    Ok(ShownLabel {
        name: owned(alloc, label.name.as_str())?,
        selected: true,
        state: found.state,
        cases: shown_cases(alloc, label, claims, found, text)?,
        points: shown_points(alloc, label, claims, found, counts)?,
        skipped: shown_skipped(alloc, label.skipped.as_slice())?,
    })
}
