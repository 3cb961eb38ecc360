// The places of a cross point.
ghost use Rattle.std.specs.Prelude.{◌≡◌, ◌-◌, ◌≤◌, [], IfOk, drop, length, map, option_map, take};
ghost use Rattle.rvs_expr.specs.TypedView.{view};
ghost use Rattle.rvs_cross.specs.declared.refusal.CrossRefusal.TheVariants as refusal;
ghost use Rattle.rvs_text.specs.Bytes.{name_length};
ghost use Rattle.rvs_cross.specs.CrossView.{place_view};
ghost use Rattle.rvs_base.specs.Answers.{AnswersWith, IfRefused};
ghost use Rattle.rvs_cross.specs.Parse as spec;

use crate::cross::Place;
use crate::entries::ops;
use crate::refusal::CrossRefusal;
use crate::variables::sets;
use rvs_base::{Fault, Items, Text, beside, release};
use rvs_expr::{Expr, ExprKind, ExprRefusal, parse_reg};
use rvs_text::bytes::name_length;
use rvs_text::trimmed;
use std::alloc::Global;

/// What stands at a column.
fn behind_column(column: u64, text: &[u8]) -> &[u8]
    ensures { result.now ≡ drop (column - 1) text.now }
{
    let start = column.saturating_sub(1) as usize;
    if start < text.len() {
        &text[start..]
    } else {
        &[]
    }
}

/// The name at the front.
fn name_before(text: &[u8]) -> &str
    ensures { result.now ≡ take (name_length text.now) text.now }
{
    str::from_utf8(&text[..name_length(text)]).unwrap()
}

/// The name at a column.
fn name_at(column: u64, text: &str) -> &str
    ensures { result.now ≡ spec.name_at column text.now }
{
    name_before(behind_column(column, text.as_bytes()))
}

/// The refusal of a name, or want of memory.
fn unassigned(alloc: Global, name: &str) -> Fault<CrossRefusal>
    ensures { IfRefused result (λ r. r ≡ refusal.UnassignedVariable name.now) }
{
    match String::from_str(alloc, name) {
        Ok(name) => Fault::Refused(CrossRefusal::UnassignedVariable {
            name: Text::from(name),
        }),
        Err(_) => Fault::NoMemory,
    }
}

/// The refusal of a mnemonic, or want of memory.
pub fn unknown(alloc: Global, name: &str) -> Fault<CrossRefusal>
    ensures { IfRefused result (λ r. r ≡ refusal.UnknownMnemonic name.now) }
{
    match String::from_str(alloc, name) {
        Ok(name) => Fault::Refused(CrossRefusal::UnknownMnemonic {
            name: Text::from(name),
        }),
        Err(_) => Fault::NoMemory,
    }
}

/// The refusal of an entry that is no expression, or want of memory.
fn refused(alloc: Global, text: &str, why: ExprRefusal) -> Fault<CrossRefusal>
    ensures { IfRefused result (λ r. r ≡ spec.refusal_of text.now why why.kind) }
{
    match why.kind {
        ExprKind::UnknownName => unassigned(alloc, name_at(why.column, text)),
        _ => Fault::Refused(CrossRefusal::Expr(why)),
    }
}

/// The expression of an entry without spaces at its ends.
fn condition(
    alloc: Global,
    variables: &[Text],
    text: &str,
) -> Result<Option<Expr>, Fault<CrossRefusal>>
    requires { length variables.now ≤ 3 }
    ensures { AnswersWith (option_map view) result (spec.condition variables.now text.now) }
{
    if text == "?" {
        return Ok(None);
    }
    match parse_reg(alloc, text, variables) {
        Ok(expr) => Ok(Some(expr)),
        Err(Fault::Refused(why)) => Err(refused(alloc, text, why)),
        Err(Fault::NoMemory) => Err(Fault::NoMemory),
    }
}

/// The place of three entries.
fn place(
    alloc: Global,
    variables: &[Text],
    mnemonics: &str,
    assignments: &str,
    entry: &str,
) -> Result<Place, Fault<CrossRefusal>>
    requires { length variables.now ≤ 3 }
    ensures { AnswersWith place_view result
        (spec.place variables.now mnemonics.now assignments.now entry.now) }
{
    match condition(alloc, variables, trimmed(entry)) {
        Ok(condition) => {
            let (ops, condition) = beside(ops(alloc, mnemonics), condition)?;
            let made = beside(sets(alloc, variables, assignments), ops);
            let ((sets, ops), condition) = beside(made, condition)?;
            Ok(Place {
                ops,
                sets,
                condition,
            })
        }
        Err(fault) => Err(fault),
    }
}

/// Adds the places of the entries of three lists.
fn fill(
    alloc: Global,
    list: &mut Items<Place>,
    variables: &[Text],
    mnemonics: &[&str],
    assignments: &[&str],
    conditions: &[&str],
) -> Result<(), Fault<CrossRefusal>>
    requires empty { list.old ≡ [] }
    requires few { length variables.now ≤ 3 }
    requires sets { length assignments.now ≡ length mnemonics.now }
    requires conditions { length conditions.now ≡ length mnemonics.now }
    ensures places { AnswersWith (λ _. map place_view list.new) result
        (spec.places variables.now (map (λ t. t.now) mnemonics.now)
        (map (λ t. t.now) assignments.now) (map (λ t. t.now) conditions.now)) }
    ensures length { IfOk result (λ _. length list.new ≡ length mnemonics.now) }
{
    for (i, entry) in mnemonics.iter().enumerate() {
        match place(alloc, variables, entry, assignments[i], conditions[i]) {
            Ok(place) => list.push(place)?,
            Err(fault) => return Err(fault),
        }
    }
    Ok(())
}

/// The places of the entries of three lists.
pub fn places(
    alloc: Global,
    variables: &[Text],
    mnemonics: &[&str],
    assignments: &[&str],
    conditions: &[&str],
) -> Result<Items<Place>, Fault<CrossRefusal>>
    requires few { length variables.now ≤ 3 }
    requires sets { length assignments.now ≡ length mnemonics.now }
    requires conditions { length conditions.now ≡ length mnemonics.now }
    ensures places { AnswersWith (map place_view) result
        (spec.places variables.now (map (λ t. t.now) mnemonics.now)
        (map (λ t. t.now) assignments.now) (map (λ t. t.now) conditions.now)) }
    ensures length { IfOk result (λ ps. length ps ≡ length mnemonics.now) }
{
    let mut list = Items::new(alloc);
    match fill(
        alloc,
        &mut list,
        variables,
        mnemonics,
        assignments,
        conditions,
    ) {
        Ok(()) => Ok(list),
        Err(fault) => {
            release(list);
            Err(fault)
        }
    }
}
