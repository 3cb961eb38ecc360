// Windows of addresses on the command line.
ghost use Rattle.std.specs.Prelude.{◌≡◌};
ghost use Rattle.rvs_words.specs.Reading.{Answers};
ghost use Rattle.rvs_words.specs.Windows.{address_of, window_of, all_windows};

use crate::unread::Unread;
use rvs_base::{Items, Text, Window, cut, short_number};
use std::alloc::Global;

/// The ranges of addresses that these words spell, each `LO:HI`.
///
/// # Errors
///
/// [`Unread`]: `NoCommand` where one spells none.
pub fn read_ranges(alloc: Global, texts: &[Text]) -> Result<Items<Window>, Unread>
    ensures { Answers result (all_windows texts.now) }
{
    let mut windows = Items::new(alloc);
    for text in texts {
        let window = window_in(text.as_str().as_bytes()).ok_or(Unread::NoCommand)?;
        windows.push(window)?;
    }
    Ok(windows)
}

/// A window: two addresses, the first below the second, with a colon between.
#[tactic(auto, using(crate::proofs::WindowCuts::window_is_cut))]
fn window_in(text: &[u8]) -> Option<Window>
    ensures { result ≡ window_of text.now }
{
    let (lo, hi) = cut(text, b':');
    let lo = address_in(lo)?;
    let hi = address_in(hi?)?;
    if lo < hi {
        Some(Window { lo, hi })
    } else {
        None
    }
}

/// An address: `0x` and one to eight hexadecimal digits.
#[tactic(auto, using(crate::proofs::WindowCuts::address_is_prefixed))]
fn address_in(text: &[u8]) -> Option<u32>
    ensures { result ≡ address_of text.now }
{
    let digits = text.strip_prefix(b"0x")?;
    Some(short_number(8, 16, digits)? as u32)
}
