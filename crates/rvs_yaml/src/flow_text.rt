// The text of flow collections.
ghost use Rattle.std.specs.Prelude.{◌≡◌, ◌<◌, true, false, length};
ghost use Rattle.rvs_base.specs.Answers.{seen};
ghost use Rattle.rvs_yaml_text.specs.Tokens as spec;
ghost use Rattle.rvs_yaml.specs.Flow as flow_spec;
ghost use Rattle.rvs_yaml.specs.TokenParts as parts;
ghost use Rattle.rvs_yaml.specs.FlowParts as flow_parts;
ghost use Rattle.rvs_tree.specs.Standin.{standin};
ghost use Rattle.rvs_yaml.specs.Gives.{Gives};
ghost use Rattle.rvs_yaml.specs.StackView.{all_known, known_view};
ghost use Rattle.rvs_tree.specs.ValueView.{value_view};
ghost use Rattle.rvs_yaml_text.specs.WordView.{bracket_view};
ghost use Rattle.rvs_yaml.specs.FlowView.{flowing_view};

use crate::flow::{first_place, flow_end, flow_step};
use crate::known::Known;
use crate::reading::{Flowing, Level, Reading};
use rvs_base::{Fault, release};
use rvs_tree::Value;
use rvs_yaml_text::{Bracket, YamlKind, behind_first, closes, next_token, starts_with};
use std::alloc::Global;

/// Whether nothing or a comment comes next.
pub(crate) fn is_flow_end(spaced: bool, bytes: &[u8]) -> bool
    ensures { result ≡ parts.is_flow_end spaced bytes.now }
{
    bytes.is_empty() || (starts_with(b'#', bytes) && spaced)
}

/// Reads one space or one token more.
fn next_flowing<'a>(
    alloc: Global,
    known: &Known<'_, '_>,
    line: u64,
    flowing: Flowing<'a>,
) -> Result<Flowing<'a>, Fault<YamlKind>>
    requires { 0 < length flowing.rest.now }
    ensures { Gives flowing_view result (parts.next_flowing known.now.poor (known_view known.now)
        line (flowing_view flowing.entry)) }
{
    let Flowing {
        reading,
        closed,
        spaced: _,
        rest,
    } = flowing;
    if starts_with(b' ', rest.as_bytes()) {
        return Ok(Flowing {
            reading,
            closed,
            spaced: true,
            rest: behind_first(rest),
        });
    }
    match next_token(alloc, closed, rest) {
        Ok((token, behind)) => {
            let closed = closes(&token);
            let reading = flow_step(alloc, known, line, reading, token)?;
            Ok(Flowing {
                reading,
                closed,
                spaced: false,
                rest: behind,
            })
        }
        Err(_) => {
            release(reading);
            Err(Fault::NoMemory)
        }
    }
}

/// The value of a flow collection from behind its first bracket, or what stands for it.
fn flow_form(
    alloc: Global,
    known: &Known<'_, '_>,
    line: u64,
    bracket: Bracket,
    text: &str,
) -> Result<Value, Fault<YamlKind>>
    ensures { Gives value_view result (flow_parts.formed_flow known.now.poor (known_view known.now)
        line (bracket_view bracket) (spec.tokens_of text.now)) }
{
    let level = Level {
        bracket,
        place: first_place(alloc, bracket),
    };
    let mut flowing = Flowing {
        reading: Reading::Inside(true, level, Vec::new(alloc)),
        closed: false,
        spaced: false,
        rest: text,
    };
    // A token takes a byte at least.
    let mut left = text.len();
    while left > 0 {
        if is_flow_end(flowing.spaced, flowing.rest.as_bytes()) {
            return flow_end(flowing.reading);
        }
        flowing = next_flowing(alloc, known, line, flowing)?;
        left -= 1;
    }
    flow_end(flowing.reading)
}

/// The value of a flow collection from behind its first bracket.
pub(crate) fn flow_value(
    alloc: Global,
    known: &Known<'_, '_>,
    line: u64,
    bracket: Bracket,
    text: &str,
) -> Result<Value, Fault<YamlKind>>
    requires { known.now.poor ≡ false }
    ensures { Gives value_view result (flow_spec.flow_value (known_view known.now) line
        (bracket_view bracket) (spec.tokens_of text.now)) }
{
    flow_form(alloc, known, line, bracket, text)
}

/// What stands for the value of a flow collection, from behind its first bracket. It takes time and
/// memory for the text alone, whatever its aliases stand for.
pub(crate) fn thin_flow_value(
    alloc: Global,
    known: &Known<'_, '_>,
    line: u64,
    bracket: Bracket,
    text: &str,
) -> Result<Value, Fault<YamlKind>>
    requires { known.now.poor ≡ true }
    ensures { Gives value_view result (seen standin (flow_spec.flow_value (all_known known.now)
        line (bracket_view bracket) (spec.tokens_of text.now))) }
{
    flow_form(alloc, known, line, bracket, text)
}
