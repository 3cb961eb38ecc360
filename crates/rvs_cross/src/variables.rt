// The variables of a cross point.
ghost use Rattle.std.specs.Prelude.{◌≡◌, ◌≤◌, IfOk, OnOk, bytes_eq, length, map};
ghost use Rattle.std.specs.List.{filter_map, list_any, position};
ghost use Rattle.rvs_text.specs.Parts.{parts};
ghost use Rattle.rvs_cross.specs.Once.{each_once, with_one};
ghost use Rattle.rvs_cross.specs.Outcomes.{for_each};
ghost use Rattle.rvs_base.specs.Answers.{AnswersWith};
ghost use Rattle.rvs_cross.specs.Variables as spec;

use crate::cross::{Assignment, Field, Variable};
use crate::entries::assignment;
use crate::refusal::CrossRefusal;
use crate::used::same_variable;
use rvs_base::{Fault, Items, Text, release};
use rvs_text::parts;
use std::alloc::{AllocError, Global};

fn is_noted(variables: &[Text], name: &str) -> bool
    ensures { result ≡ spec.is_noted variables.now name.now }
{
    variables.iter().any(|variable| variable.as_str() == name)
}

/// Adds a variable, where it isn't there yet.
fn note(alloc: Global, name: &str, variables: &mut Items<Text>) -> Result<(), Fault<CrossRefusal>>
    ensures { AnswersWith (λ _. variables.new) result (spec.note name.now variables.old) }
{
    if is_noted(variables.as_slice(), name) {
        return Ok(());
    }
    if variables.as_slice().len() >= 3 {
        return Err(Fault::Refused(CrossRefusal::TooManyVariables));
    }
    let name = String::from_str(alloc, name)?;
    variables.push(Text::from(name))?;
    Ok(())
}

/// Adds the variable of an assignment.
fn note_part(
    alloc: Global,
    part: &str,
    variables: &mut Items<Text>,
) -> Result<(), Fault<CrossRefusal>>
    ensures { AnswersWith (λ _. variables.new) result (spec.note_part part.now variables.old) }
{
    match assignment(part) {
        Some((name, _)) => note(alloc, name, variables),
        None => Ok(()),
    }
}

fn note_parts(
    alloc: Global,
    parts: &[&str],
    variables: &mut Items<Text>,
) -> Result<(), Fault<CrossRefusal>>
    ensures { AnswersWith (λ _. variables.new) result
        (for_each spec.note_part (map (λ t. t.now) parts.now) variables.old) }
{
    for part in parts {
        match note_part(alloc, part, variables) {
            Ok(()) => {}
            Err(fault) => return Err(fault),
        }
    }
    Ok(())
}

/// Adds the variables of an entry.
fn note_entry(
    alloc: Global,
    entry: &str,
    variables: &mut Items<Text>,
) -> Result<(), Fault<CrossRefusal>>
    ensures { AnswersWith (λ _. variables.new) result (spec.note_entry entry.now variables.old) }
{
    let parts = parts(alloc, ';', entry)?;
    let noted = note_parts(alloc, parts.as_slice(), variables);
    release(parts);
    noted
}

/// The variables of these entries, at most three, in the order in which they appear first.
#[tactic(auto, using(crate::proofs::Noting::at_most_three))]
pub fn variables(alloc: Global, entries: &[&str]) -> Result<Items<Text>, Fault<CrossRefusal>>
    ensures noted { AnswersWith (λ v. v) result (spec.variables (map (λ t. t.now) entries.now)) }
    ensures few { IfOk result (λ v. length v ≤ 3) }
{
    let mut variables = Items::new(alloc);
    for entry in entries {
        note_entry(alloc, entry, &mut variables)?;
    }
    Ok(variables)
}

/// Where a name stands among the variables.
fn place_of(variables: &[Text], name: &str) -> Option<usize>
    ensures { result ≡ position (λ v. bytes_eq v name.now) variables.now }
{
    variables
        .iter()
        .position(|variable| variable.as_str() == name)
}

fn variable_named(variables: &[Text], name: &str) -> Variable
    ensures { result ≡ spec.variable_named variables.now name.now }
{
    match place_of(variables, name) {
        Some(0) => Variable::First,
        Some(1) => Variable::Second,
        _ => Variable::Third,
    }
}

fn set_of(variables: &[Text], part: &str) -> Option<Assignment>
    ensures { result ≡ spec.set_of variables.now part.now }
{
    let (name, field) = assignment(part)?;
    Some(Assignment {
        variable: variable_named(variables, name),
        field,
    })
}

fn sets_among(alloc: Global, variables: &[Text], entry: &str) -> Result<Vec<Assignment>, AllocError>
    ensures { IfOk result
        (λ v. v.items ≡ filter_map (spec.set_of variables.now) (parts 59 entry.now)) }
{
    entry
        .split(';')
        .filter_map(|part| set_of(variables, part))
        .collect(alloc)
}

/// Whether these are one field. It takes no memory.
pub fn same_field(left: Field, right: Field) -> bool
    ensures { result ≡ spec.same_field left right }
{
    matches!(
        (left, right),
        (Field::Rd, Field::Rd) | (Field::Rs1, Field::Rs1) | (Field::Rs2, Field::Rs2)
    )
}

/// Whether two assignments say the same.
fn same_set(left: Assignment, right: Assignment) -> bool
    ensures { result ≡ spec.same_set left right }
{
    same_variable(left.variable, right.variable) && same_field(left.field, right.field)
}

fn is_among(sets: &[Assignment], set: Assignment) -> bool
    ensures { result ≡ list_any (λ other. spec.same_set other set) sets.now }
{
    sets.iter().any(|other| same_set(*other, set))
}

/// Adds an assignment, where it isn't there yet.
fn add(sets: &mut Vec<Assignment>, set: Assignment) -> Result<(), AllocError>
    ensures { OnOk result (sets.new.items ≡ with_one spec.same_set sets.old.items set) }
{
    if !is_among(sets.as_slice(), set) {
        sets.push(set)?;
    }
    Ok(())
}

/// The assignments, each once, so at most nine. Each is held against those that are kept.
fn each_once(alloc: Global, all: &[Assignment]) -> Result<Vec<Assignment>, AllocError>
    ensures { IfOk result (λ v. v.items ≡ each_once spec.same_set all.now) }
{
    let mut sets = Vec::new(alloc);
    for set in all {
        add(&mut sets, *set)?;
    }
    Ok(sets)
}

/// The assignments of an entry, each once.
///
/// # Errors
///
/// Want of memory.
pub fn sets(alloc: Global, variables: &[Text], entry: &str) -> Result<Items<Assignment>, AllocError>
    ensures { IfOk result (λ sets. sets ≡ spec.sets variables.now entry.now) }
{
    let all = sets_among(alloc, variables, entry)?;
    let sets = each_once(alloc, all.as_slice());
    release(all);
    Ok(Items::from(sets?))
}
