// Parts on the command line.
ghost use Rattle.std.specs.Prelude.{◌≡◌, codes};
ghost use Rattle.rvs_words.specs.PartWords.{part_of, parts_of};
ghost use Rattle.rvs_words.specs.Reading.{Answers};
ghost use Rattle.rvs_words.specs.Words.{values_of};

use crate::unread::Unread;
use crate::words::{Pair, optional_value};
use rvs_base::{cut, short_number};
use rvs_parts::Part;
use std::alloc::Global;

/// The value of `--part`, which needn't stand.
///
/// # Errors
///
/// [`Unread`]: `NoCommand` where it spells no part, or stands twice.
#[tactic(auto, using(crate::proofs::PartValues::parts_are_at_most_one))]
pub fn read_part(alloc: Global, pairs: &[Pair]) -> Result<Option<Part>, Unread>
    ensures { Answers result (parts_of (values_of (codes "--part") pairs.now)) }
{
    match optional_value(alloc, pairs, "--part")? {
        None => Ok(None),
        Some(text) => Ok(Some(part_in(text.as_str().as_bytes()).ok_or(Unread::NoCommand)?)),
    }
}

/// A part: its number and that of all parts, with a slash between.
fn part_in(text: &[u8]) -> Option<Part>
    ensures { result ≡ part_of text.now }
{
    let (at, of) = cut(text, b'/');
    let at = short_number(4, 10, at)?;
    let of = short_number(4, 10, of?)?;
    Part::new(at, of)
}
