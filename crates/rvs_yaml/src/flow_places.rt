// What may come next in a flow collection, told without memory.
ghost use Rattle.std.specs.Prelude.{◌≡◌, ℕ, Bool, Some};
ghost use Rattle.rvs_tree.specs.Value as value_spec;
ghost use Rattle.rvs_yaml.specs.Checks.{succeeds};
ghost use Rattle.rvs_yaml.specs.Flow as spec;
ghost use Rattle.rvs_yaml.specs.FlowSteps as steps_spec;
ghost use Rattle.rvs_yaml.specs.FlowView.{place_view, levels_view};
ghost use Rattle.rvs_yaml.specs.Gives.{Agrees};
ghost use Rattle.rvs_yaml_text.specs.WordView.{bracket_view};

use crate::reading::{FlowState, Level};
use rvs_yaml_text::{Bracket, YamlKind};

/// Whether a value may stand here.
pub(crate) fn may_take(place: &FlowState) -> Result<(), YamlKind>
    ensures { (v : value_spec.Value)
        → Agrees (λ u. u) result (succeeds (spec.with_value (place_view place.now) v)) }
{
    match place {
        FlowState::Member(_) | FlowState::EntryValue(_) => Ok(()),
        _ => Err(YamlKind::BadFlow),
    }
}

/// Whether a value may stand in the innermost of these collections, if there is one.
pub(crate) fn may_go_on(outer: &[Level]) -> Result<(), YamlKind>
    ensures { (v : value_spec.Value) → (good : Bool)
        → Agrees (λ u. u) result (succeeds (steps_spec.into (v, good) (levels_view outer.now))) }
{
    match outer {
        [] => Ok(()),
        [.., level] => may_take(&level.place),
    }
}

/// Whether a collection may begin here.
pub(crate) fn may_open(place: &FlowState) -> Result<(), YamlKind>
    ensures { Agrees (λ u. u) result (spec.may_open (place_view place.now)) }
{
    match place {
        FlowState::Member(_) | FlowState::EntryValue(_) => Ok(()),
        FlowState::KeyPlace(_) => Err(YamlKind::Unsupported),
        _ => Err(YamlKind::BadFlow),
    }
}

/// Whether a collection may end here.
pub(crate) fn may_close(place: &FlowState) -> Result<(), YamlKind>
    ensures { (line : ℕ)
        → Agrees (λ u. u) result (succeeds (spec.closes line (place_view place.now))) }
{
    match place {
        FlowState::EntryValue(_) => Err(YamlKind::BadFlow),
        _ => Ok(()),
    }
}

/// Whether the bracket ends a collection with this one.
pub(crate) fn ends_with(first: Bracket, last: Bracket) -> Result<(), YamlKind>
    ensures { Agrees (λ u. u) result
        (spec.ends_with (bracket_view first) (Some (bracket_view last))) }
{
    match (first, last) {
        (Bracket::Square, Bracket::Square) | (Bracket::Curly, Bracket::Curly) => Ok(()),
        _ => Err(YamlKind::BadFlow),
    }
}
