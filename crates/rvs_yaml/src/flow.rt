// Reading flow collections from left to right.
ghost use Rattle.std.specs.Prelude.{◌≡◌, ◌&&◌, ℕ, Bool, true};
ghost use Rattle.rvs_tree.specs.Value as value_spec;
ghost use Rattle.rvs_yaml.specs.Flow as spec;
ghost use Rattle.rvs_yaml.specs.FlowSteps as steps_spec;
ghost use Rattle.rvs_yaml.specs.FlowParts as parts;
ghost use Rattle.rvs_yaml.specs.Checks.{succeeds};
ghost use Rattle.rvs_yaml.specs.Gives.{Agrees, Decides, Gives, FailsWith};
ghost use Rattle.rvs_yaml.specs.StackView.{known_view};
ghost use Rattle.rvs_tree.specs.ValueView.{value_view, entries_view};
ghost use Rattle.rvs_yaml_text.specs.KeyView.{key_view};
ghost use Rattle.rvs_yaml_text.specs.WordView.{bracket_view};
ghost use Rattle.rvs_yaml_text.specs.TokenView.{token_view};
ghost use Rattle.rvs_yaml.specs.FlowView.{place_view, reading_view, levels_view};

use crate::entry::entry_of;
use crate::flow_places::{ends_with, may_close, may_go_on, may_open, may_take};
use crate::flow_refusals::{colon_scalar_fault, cut_key_fault, is_new, refused, start_fault};
use crate::known::Known;
use crate::reading::{FlowState, Level, Pending, Reading};
use crate::taking::{boxed, pushed};
use rvs_base::{Fault, release};
use rvs_tree::{
    EntryList, Value, ValueList, Written, list_value, map_value, scalar_value, thin_list_value,
    thin_map_value,
};
use rvs_yaml_text::{Bracket, Key, Token, YamlKind};
use std::alloc::Global;

/// The place behind a collection's bracket.
pub(crate) fn first_place(alloc: Global, bracket: Bracket) -> FlowState
    ensures { place_view result ≡ spec.first_place (bracket_view bracket) }
{
    match bracket {
        Bracket::Square => FlowState::Member(ValueList::new(alloc)),
        Bracket::Curly => FlowState::KeyPlace(EntryList::new(alloc)),
    }
}

/// The place behind a value.
fn with_value(alloc: Global, place: FlowState, value: Value) -> Result<FlowState, Fault<YamlKind>>
    ensures given { Gives place_view result
        (spec.with_value (place_view place) (value_view value)) }
    ensures refused { FailsWith result
        (spec.with_value (place_view place) (value_view value)) }
{
    match place {
        FlowState::Member(list) => Ok(FlowState::BehindMember(list.with(alloc, value)?)),
        FlowState::EntryValue(pending) => {
            let Pending { list, key } = Box::into_inner(pending);
            Ok(FlowState::BehindEntry(list.with(alloc, entry_of(key, value))?))
        }
        _ => {
            release(value);
            refused(Fault::Refused(YamlKind::BadFlow), place)
        },
    }
}

/// The place behind a comma.
fn with_comma(place: FlowState) -> Result<FlowState, Fault<YamlKind>>
    ensures { Decides place_view result (spec.with_comma (place_view place)) }
{
    match place {
        FlowState::BehindMember(list) => Ok(FlowState::Member(list)),
        FlowState::BehindEntry(list) => Ok(FlowState::KeyPlace(list)),
        _ => refused(Fault::Refused(YamlKind::BadFlow), place),
    }
}

/// The place behind a key and its colon.
fn with_key(alloc: Global, place: FlowState, key: Key) -> Result<FlowState, Fault<YamlKind>>
    ensures given { Gives place_view result
        (spec.with_key (place_view place) (key_view key)) }
    ensures refused { FailsWith result
        (spec.with_key (place_view place) (key_view key)) }
{
    match place {
        FlowState::KeyPlace(list) => {
            if is_new(&list, &key) {
                Ok(FlowState::EntryValue(boxed(alloc, Pending { list, key })?))
            } else {
                release(list);
                release(key);
                Err(Fault::Refused(YamlKind::DuplicateKey))
            }
        }
        FlowState::Member(_) | FlowState::EntryValue(_) => {
            release(key);
            refused(Fault::Refused(YamlKind::BadScalar), place)
        },
        _ => {
            release(key);
            refused(Fault::Refused(YamlKind::BadFlow), place)
        },
    }
}

/// The value of an alias that stands here.
fn alias_here(
    alloc: Global,
    known: &Known<'_, '_>,
    place: &FlowState,
    name: &str,
) -> Result<Value, Fault<YamlKind>>
    ensures given { Gives value_view result
        (parts.alias_at (known_view known.now) (place_view place.now) name.now) }
    ensures refused { FailsWith result
        (parts.alias_at (known_view known.now) (place_view place.now) name.now) }
{
    match place {
        FlowState::Member(_) | FlowState::EntryValue(_) => {
            if name.is_empty() {
                return Err(Fault::Refused(YamlKind::BadFlow));
            }
            known.alias_value(alloc, name)
        }
        FlowState::KeyPlace(_) => Err(Fault::Refused(YamlKind::BadScalar)),
        _ => Err(Fault::Refused(YamlKind::BadFlow)),
    }
}

/// The place behind an alias.
fn with_alias(
    alloc: Global,
    known: &Known<'_, '_>,
    place: FlowState,
    name: &str,
) -> Result<FlowState, Fault<YamlKind>>
    ensures given { Gives place_view result
        (spec.with_alias (known_view known.now) (place_view place) name.now) }
    ensures refused { FailsWith result
        (spec.with_alias (known_view known.now) (place_view place) name.now) }
{
    match alias_here(alloc, known, &place, name) {
        Ok(value) => with_value(alloc, place, value),
        Err(fault) => refused(fault, place),
    }
}

/// The place behind a scalar.
fn with_scalar(
    alloc: Global,
    line: u64,
    place: FlowState,
    key: Key,
) -> Result<FlowState, Fault<YamlKind>>
    ensures given { Gives place_view result
        (spec.with_value (place_view place) (value_spec.scalar_value (key_view key).name line)) }
    ensures refused { FailsWith result
        (spec.with_value (place_view place) (value_spec.scalar_value (key_view key).name line)) }
{
    if let Err(kind) = may_take(&place) {
        release(key);
        return refused(Fault::Refused(kind), place);
    }
    match scalar_value(alloc, key.name, line) {
        Ok(value) => with_value(alloc, place, value),
        Err(_) => refused(Fault::NoMemory, place),
    }
}

/// The place behind a token that is no bracket.
fn with_token(
    alloc: Global,
    known: &Known<'_, '_>,
    line: u64,
    place: FlowState,
    token: Token<'_>,
) -> Result<FlowState, Fault<YamlKind>>
    ensures given { Gives place_view result
        (spec.with_token (known_view known.now) line (place_view place) (token_view token.entry)) }
    ensures refused { FailsWith result
        (spec.with_token (known_view known.now) line (place_view place) (token_view token.entry)) }
{
    match token {
        Token::Comma => with_comma(place),
        Token::Colon => refused(
            Fault::Refused(start_fault(&place, YamlKind::BadScalar)),
            place,
        ),
        Token::Scalar(key) => with_scalar(alloc, line, place, key),
        Token::Keyed(key) => with_key(alloc, place, key),
        Token::CutKey(key) => {
            let fault = Fault::Refused(cut_key_fault(&place, &key));
            release(key);
            refused(fault, place)
        }
        Token::ColonScalar(byte) => refused(
            Fault::Refused(colon_scalar_fault(&place, byte)),
            place,
        ),
        Token::Alias(name) => with_alias(alloc, known, place, name),
        Token::Fault(kind) => refused(Fault::Refused(start_fault(&place, kind)), place),
        Token::LateColon => refused(Fault::Refused(YamlKind::Unsupported), place),
        Token::Opening(_) | Token::Closing(_) => {
            refused(Fault::Refused(YamlKind::BadFlow), place)
        }
    }
}

/// The value of a collection that ends here, or what stands for it.
fn closed_by(
    alloc: Global,
    poor: bool,
    line: u64,
    place: FlowState,
) -> Result<Value, Fault<YamlKind>>
    ensures given { Gives value_view result (steps_spec.closed_by poor line (place_view place)) }
    ensures refused { FailsWith result (steps_spec.closed_by poor line (place_view place)) }
{
    let made = match place {
        FlowState::Member(list) | FlowState::BehindMember(list) => {
            if poor {
                let thin = thin_list_value(alloc, line, &list);
                release(list);
                thin
            } else {
                list_value(alloc, line, list)
            }
        }
        FlowState::KeyPlace(list) | FlowState::BehindEntry(list) => {
            if poor {
                let thin = thin_map_value(alloc, line, &list);
                release(list);
                thin
            } else {
                map_value(alloc, line, list)
            }
        }
        FlowState::EntryValue(pending) => {
            release(pending);
            return Err(Fault::Refused(YamlKind::BadFlow));
        }
    };
    Ok(made?)
}

/// Whether the last of these entries can be merged, where it is to be.
fn last_fits(entries: &[Written]) -> bool
    ensures { result ≡ spec.last_fits (entries_view entries.now) }
{
    match entries {
        [] => true,
        [.., last] => !last.merges || last.value.mergeable,
    }
}

/// Whether all that merges can be merged, with the entry that was read last.
fn still_good(good: bool, place: &FlowState) -> bool
    ensures { result ≡ (good && spec.fits (place_view place.now)) }
{
    match place {
        FlowState::BehindEntry(list) => good && last_fits(list.entries.as_slice()),
        _ => good,
    }
}

/// What is read once a value is whole.
fn into(
    alloc: Global,
    value: Value,
    good: bool,
    mut outer: Vec<Level>,
) -> Result<Reading, Fault<YamlKind>>
    ensures given { Gives reading_view result
        (steps_spec.into (value_view value, good) (levels_view outer.items)) }
    ensures refused { FailsWith result
        (steps_spec.into (value_view value, good) (levels_view outer.items)) }
{
    let Some(level) = outer.pop() else {
        return Ok(Reading::Whole(value, good));
    };
    let place = with_value(alloc, level.place, value)?;
    let good = still_good(good, &place);
    Ok(Reading::Inside(
        good,
        Level {
            bracket: level.bracket,
            place,
        },
        outer,
    ))
}

/// What is read behind an opening bracket.
fn opened(
    alloc: Global,
    good: bool,
    level: Level,
    outer: Vec<Level>,
    bracket: Bracket,
) -> Result<Reading, Fault<YamlKind>>
    ensures given { Gives reading_view result
        (parts.opened good (bracket_view level.bracket)
        (place_view level.place) (levels_view outer.items) (bracket_view bracket)) }
    ensures refused { FailsWith result
        (parts.opened good (bracket_view level.bracket)
        (place_view level.place) (levels_view outer.items) (bracket_view bracket)) }
{
    if let Err(kind) = may_open(&level.place) {
        release((level, outer));
        return Err(Fault::Refused(kind));
    }
    let outer = pushed(outer, level)?;
    Ok(Reading::Inside(
        good,
        Level {
            bracket,
            place: first_place(alloc, bracket),
        },
        outer,
    ))
}

/// Whether this bracket may end the innermost collection, around which these are open.
fn may_end(level: &Level, outer: &[Level], bracket: Bracket) -> Result<(), YamlKind>
    ensures { (poor : Bool) → (line : ℕ) → (good : Bool) → Agrees (λ u. u) result
        (succeeds (parts.closed poor line good (bracket_view level.now.bracket)
        (place_view level.now.place) (levels_view outer.now) (bracket_view bracket))) }
{
    may_close(&level.place)?;
    ends_with(level.bracket, bracket)?;
    may_go_on(outer)
}

/// What is read behind a closing bracket.
fn closed(
    alloc: Global,
    poor: bool,
    line: u64,
    good: bool,
    level: Level,
    outer: Vec<Level>,
    bracket: Bracket,
) -> Result<Reading, Fault<YamlKind>>
    ensures given { Gives reading_view result
        (parts.closed poor line good (bracket_view level.bracket)
        (place_view level.place) (levels_view outer.items) (bracket_view bracket)) }
    ensures refused { FailsWith result
        (parts.closed poor line good (bracket_view level.bracket)
        (place_view level.place) (levels_view outer.items) (bracket_view bracket)) }
{
    match may_end(&level, outer.as_slice(), bracket) {
        Ok(()) => {
            let value = closed_by(alloc, poor, line, level.place)?;
            into(alloc, value, good, outer)
        }
        Err(kind) => {
            release((level, outer));
            Err(Fault::Refused(kind))
        },
    }
}

/// What is read behind another token.
fn moved(
    alloc: Global,
    known: &Known<'_, '_>,
    line: u64,
    good: bool,
    level: Level,
    outer: Vec<Level>,
    token: Token<'_>,
) -> Result<Reading, Fault<YamlKind>>
    ensures given { Gives reading_view result
        (steps_spec.moved good (bracket_view level.bracket)
        (levels_view outer.items) (spec.with_token (known_view known.now) line
        (place_view level.place) (token_view token.entry))) }
    ensures refused { FailsWith result
        (steps_spec.moved good (bracket_view level.bracket)
        (levels_view outer.items) (spec.with_token (known_view known.now) line
        (place_view level.place) (token_view token.entry))) }
{
    let place = with_token(alloc, known, line, level.place, token)?;
    let good = still_good(good, &place);
    Ok(Reading::Inside(
        good,
        Level {
            bracket: level.bracket,
            place,
        },
        outer,
    ))
}

/// What is read behind one token more.
pub(crate) fn flow_step(
    alloc: Global,
    known: &Known<'_, '_>,
    line: u64,
    reading: Reading,
    token: Token<'_>,
) -> Result<Reading, Fault<YamlKind>>
    ensures given { Gives reading_view result
        (steps_spec.flow_step known.now.poor (known_view known.now)
        line (reading_view reading) (token_view token.entry)) }
    ensures refused { FailsWith result
        (steps_spec.flow_step known.now.poor (known_view known.now)
        line (reading_view reading) (token_view token.entry)) }
{
    match reading {
        Reading::Inside(good, level, outer) => match token {
            Token::Opening(bracket) => opened(alloc, good, level, outer, bracket),
            Token::Closing(bracket) => closed(alloc, known.poor, line, good, level, outer, bracket),
            _ => moved(alloc, known, line, good, level, outer, token),
        },
        Reading::Whole(value, _) => {
            release(value);
            let kind = match &token {
                Token::LateColon => YamlKind::Unsupported,
                _ => YamlKind::BadFlow,
            };
            release(token);
            Err(Fault::Refused(kind))
        }
    }
}

/// The value of a collection with nothing behind it.
pub(crate) fn flow_end(reading: Reading) -> Result<Value, Fault<YamlKind>>
    ensures { Decides value_view result (parts.ended (reading_view reading)) }
{
    match reading {
        Reading::Whole(value, true) => Ok(value),
        Reading::Whole(_, false) => {
            release(reading);
            Err(Fault::Refused(YamlKind::BadMerge))
        },
        Reading::Inside(_, _, _) => {
            release(reading);
            Err(Fault::Refused(YamlKind::BadFlow))
        },
    }
}
