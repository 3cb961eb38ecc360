// The families of abstract points on the command line.
ghost use Rattle.std.specs.Prelude.{◌≡◌, codes};
ghost use Rattle.rvs_words.specs.FamilyWords.{families_of};
ghost use Rattle.rvs_words.specs.Reading.{Answers};
ghost use Rattle.rvs_words.specs.Words.{values_of};

use crate::unread::Unread;
use crate::words::{Pair, optional_value};
use rvs_abstract::Families;
use std::alloc::Global;

/// The value of `--families`, which needn't stand.
///
/// # Errors
///
/// [`Unread`]: `NoCommand` where it isn't `all`, or stands twice.
#[tactic(auto, using(crate::proofs::FamilyValues::families_are_at_most_one))]
pub fn read_families(alloc: Global, pairs: &[Pair]) -> Result<Families, Unread>
    ensures { Answers result (families_of (values_of (codes "--families") pairs.now)) }
{
    match optional_value(alloc, pairs, "--families")? {
        None => Ok(Families::Stated),
        Some(text) => {
            if text.as_str() == "all" {
                Ok(Families::All)
            } else {
                Err(Unread::NoCommand)
            }
        },
    }
}
