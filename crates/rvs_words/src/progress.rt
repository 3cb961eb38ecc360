// The option that has no value on the command line.
ghost use Rattle.std.specs.Prelude.{◌≡◌, codes};
ghost use Rattle.rvs_words.specs.Commands.{flag_of};
ghost use Rattle.rvs_words.specs.Reading.{Answers};
ghost use Rattle.rvs_words.specs.Words.{values_of};

use crate::unread::Unread;
use crate::words::{Pair, optional_value};
use std::alloc::Global;

/// Whether `--progress` stands.
///
/// # Errors
///
/// [`Unread`]: `NoCommand` where it has a value, or stands twice.
#[tactic(auto, using(crate::proofs::OptionValues::flags_are_at_most_one))]
pub fn read_progress(alloc: Global, pairs: &[Pair]) -> Result<bool, Unread>
    ensures { Answers result (flag_of (values_of (codes "--progress") pairs.now)) }
{
    match optional_value(alloc, pairs, "--progress")? {
        None => Ok(false),
        Some(value) => {
            if value.as_str().is_empty() {
                Ok(true)
            } else {
                Err(Unread::NoCommand)
            }
        },
    }
}
