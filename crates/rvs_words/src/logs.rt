// Execution logs on the command line, each with the range of its signature.
ghost use Rattle.std.specs.Prelude.{◌≡◌, IfOk, codes, map};
ghost use Rattle.rvs_words.specs.LogWords.{signed_log, signed_each, with_ranges, signed_logs};
ghost use Rattle.rvs_words.specs.Words.{values_of};
ghost use Rattle.rvs_words.specs.Reading.{Answers};

use crate::command::SignedLog;
use crate::unread::Unread;
use crate::windows::read_ranges;
use crate::words::{Pair, owned, values};
use rvs_base::{Items, NoMemory, Text, Window};
use std::alloc::Global;

/// The logs of these names, each with the range that a value of `--signature` spells.
///
/// # Errors
///
/// [`Unread`]: `NoCommand` where a value spells none, or where there is neither one nor one for
/// each log.
pub fn given_signatures(
    alloc: Global,
    pairs: &[Pair],
    names: &[Text],
) -> Result<Items<SignedLog>, Unread>
    ensures { Answers result (signed_logs names.now (values_of (codes "--signature") pairs.now)) }
{
    let spelled = values(alloc, pairs, "--signature")?;
    let ranges = read_ranges(alloc, spelled.as_slice())?;
    with_ranges(alloc, names, ranges.as_slice())
}

fn with_ranges(alloc: Global, names: &[Text], ranges: &[Window]) -> Result<Items<SignedLog>, Unread>
    ensures { Answers result (with_ranges names.now ranges.now) }
{
    if let [range] = ranges {
        return Ok(signed_alike(alloc, names, *range)?);
    }
    if ranges.len() != names.len() {
        return Err(Unread::NoCommand);
    }
    Ok(signed_each(alloc, names, ranges)?)
}

fn signed_alike(alloc: Global, names: &[Text], range: Window) -> Result<Items<SignedLog>, NoMemory>
    ensures { IfOk result (λ logs. logs ≡ map (λ name. signed_log name range) names.now) }
{
    let mut logs = Items::new(alloc);
    for name in names {
        let name = owned(alloc, name.as_str())?;
        logs.push(SignedLog {
            name,
            signature: range,
        })?;
    }
    Ok(logs)
}

/// As many logs as there are ranges, each with its own.
fn signed_each(
    alloc: Global,
    names: &[Text],
    ranges: &[Window],
) -> Result<Items<SignedLog>, NoMemory>
    ensures { IfOk result (λ logs. logs ≡ signed_each names.now ranges.now) }
{
    let mut logs = Items::new(alloc);
    let mut left = ranges;
    for name in names {
        let Some((range, more)) = left.split_first() else {
            return Ok(logs);
        };
        let name = owned(alloc, name.as_str())?;
        logs.push(SignedLog {
            name,
            signature: *range,
        })?;
        left = more;
    }
    Ok(logs)
}
