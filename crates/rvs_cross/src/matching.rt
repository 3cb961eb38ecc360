// When neighbouring instructions match a cross point.
ghost use Rattle.std.specs.Prelude.{◌≡◌, ◌+◌, ◌≤◌, ◌&&◌, length, map, Some};
ghost use Rattle.rvs_insn.specs.Fields.{IsRegister};
ghost use Rattle.rvs_cross.specs.Bare.{bare_view};
ghost use Rattle.rvs_cross.specs.CrossView.{place_view, cross_view};
ghost use Rattle.rvs_cross.specs.Windows as windows;
ghost use Rattle.rvs_cross.specs.Assigned.{assigned_field, assigned};
ghost use Rattle.rvs_cross.specs.Used.{is_bound, is_used};

use crate::cross::{Assignment, Cross, Field, Place, Used, Variable};
use crate::fitting::{fits, fits_bare};
use crate::used::same_variable;
use crate::values::{Values, register_in};
use rvs_expr::Steps;
use rvs_insn::Insn;
use std::sync::ledger::Ledger;

/// Whether instructions match a cross point: some registers for its variables make each of them
/// what its place asks for. It takes no memory, and at most a step for each place.
pub fn matches<L: Ledger>(cross: &Cross, window: &[Insn], steps: &mut Steps<L>) -> bool
    requires { length window.now ≡ length cross.now.list }
    ensures value { result ≡ windows.matches (cross_view cross.now)
        (map (λ i. Some i) window.now) }
    ensures cost { steps.new ≤ steps.old + length cross.now.list }
{
    let places = cross.list.as_slice();
    let used = cross.used;
    let first = found(used.first, places, Variable::First, window);
    let second = found(used.second, places, Variable::Second, window);
    let third = found(used.third, places, Variable::Third, window);
    if !cross.once {
        let values = Values {
            first,
            second,
            third,
        };
        return all_fit(&values, places, window, steps);
    }
    let values = Values {
        first,
        second,
        third,
    };
    if !all_bound(used, &values) {
        return false;
    }
    all_bare(&values, places, window, steps)
}

#[inline(always)]
fn is_bound(used: bool, value: Option<u8>) -> bool
    ensures { result ≡ is_bound used value }
{
    match value {
        None => !used,
        Some(_) => true,
    }
}

/// Whether each variable that is used stands for a register. Where none has two assignments, they
/// then hold.
#[inline(always)]
fn all_bound(used: Used, values: &Values) -> bool
    ensures { result ≡ (is_bound used.first values.now.first
        && (is_bound used.second values.now.second && is_bound used.third values.now.third)) }
{
    is_bound(used.first, values.first)
        && is_bound(used.second, values.second)
        && is_bound(used.third, values.third)
}

/// The field of the first of these assignments that says something of a variable.
#[inline(always)]
fn assigned_field(sets: &[Assignment], variable: Variable) -> Option<Field>
    ensures { result ≡ assigned_field variable sets.now }
{
    let first = sets
        .iter()
        .find(|assignment| same_variable(variable, assignment.variable));
    first.map(|assignment| assignment.field)
}

/// The register that the first assignment of a variable finds.
#[inline(always)]
fn assigned(places: &[Place], variable: Variable, window: &[Insn]) -> Option<u8>
    requires { length window.now ≡ length places.now }
    ensures value { result ≡ assigned variable (map place_view places.now) window.now }
    ensures register { IsRegister result }
{
    for (k, place) in places.iter().enumerate() {
        let insn = &window[k];
        match assigned_field(place.sets.as_slice(), variable) {
            Some(field) => return register_in(insn, field),
            None => {},
        }
    }
    None
}

/// The same, where no place is looked at for a variable of which none says anything.
#[inline(always)]
fn found(used: bool, places: &[Place], variable: Variable, window: &[Insn]) -> Option<u8>
    requires long { length window.now ≡ length places.now }
    requires used { used ≡ is_used places.now variable }
    ensures value { result ≡ assigned variable (map place_view places.now) window.now }
    ensures register { IsRegister result }
{
    if used {
        assigned(places, variable, window)
    } else {
        None
    }
}

/// Whether each instruction is what its place asks for.
#[inline(never)]
fn all_fit<L: Ledger>(
    values: &Values,
    places: &[Place],
    window: &[Insn],
    steps: &mut Steps<L>,
) -> bool
    requires { length window.now ≡ length places.now }
    ensures value { result ≡ windows.all_fit values.now (map place_view places.now)
        (map (λ i. Some i) window.now) }
    ensures cost { steps.new ≤ steps.old + length places.now }
{
    for (k, place) in places.iter().enumerate() {
        if !fits(values, place, &window[k], steps) {
            return false;
        }
    }
    true
}

/// Whether each instruction is what its place asks for besides its assignments.
fn all_bare<L: Ledger>(
    values: &Values,
    places: &[Place],
    window: &[Insn],
    steps: &mut Steps<L>,
) -> bool
    requires { length window.now ≡ length places.now }
    ensures value { result ≡ windows.all_fit values.now (map bare_view places.now)
        (map (λ i. Some i) window.now) }
    ensures cost { steps.new ≤ steps.old + length places.now }
{
    for (k, place) in places.iter().enumerate() {
        if !fits_bare(values, place, &window[k], steps) {
            return false;
        }
    }
    true
}
