// Which variables the places of a cross point say something of.
ghost use Rattle.std.specs.Prelude.{◌≡◌};
ghost use Rattle.rvs_cross.specs.Windows as windows;
ghost use Rattle.rvs_cross.specs.Used as spec;

use crate::cross::{Assignment, Place, Variable};

#[inline(always)]
pub(crate) fn same_variable(left: Variable, right: Variable) -> bool
    ensures { result ≡ windows.same_variable left right }
{
    matches!(
        (left, right),
        (Variable::First, Variable::First)
            | (Variable::Second, Variable::Second)
            | (Variable::Third, Variable::Third)
    )
}

fn says_in(sets: &[Assignment], variable: Variable) -> bool
    ensures { result ≡ spec.says_in variable sets.now }
{
    sets.iter()
        .any(|assignment| same_variable(variable, assignment.variable))
}

/// Whether some place says something of the variable.
pub fn is_used(places: &[Place], variable: Variable) -> bool
    ensures { result ≡ spec.is_used places.now variable }
{
    places
        .iter()
        .any(|place| says_in(place.sets.as_slice(), variable))
}

/// Whether no variable has two of these assignments.
fn once_among(sets: &[Assignment]) -> bool
    ensures { result ≡ spec.once_among sets.now }
{
    match sets {
        [] => true,
        [set, after @ ..] => !says_in(after, set.variable) && once_among(after),
    }
}

/// Whether one of these assignments is of a variable of which some place says something.
fn used_by(places: &[Place], sets: &[Assignment]) -> bool
    ensures { result ≡ spec.used_by places.now sets.now }
{
    sets.iter()
        .any(|assignment| is_used(places, assignment.variable))
}

/// Whether no variable has two assignments.
pub(crate) fn assigns_once(places: &[Place]) -> bool
    ensures { result ≡ spec.assigns_once places.now }
{
    match places {
        [] => true,
        [place, after @ ..] => {
            let sets = place.sets.as_slice();
            once_among(sets) && !used_by(after, sets) && assigns_once(after)
        }
    }
}
