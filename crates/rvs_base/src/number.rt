// Numbers as text.
ghost use Rattle.std.specs.Prelude.{◌≡◌, ◌%◌, pos, IfOk};
ghost use Rattle.std.specs.Fmt.{signed_decimal};
ghost use Rattle.std.specs.Int.{w32, cast_signed};
ghost use Rattle.rvs_base.specs.Number.{hex_digit_of, hex_word_of};

use crate::{NoMemory, Text};
use std::alloc::Global;

/// The number in decimal digits without leading zeros, after a minus sign where it is below 0.
///
/// # Errors
///
/// [`NoMemory`].
pub fn decimal(alloc: Global, n: i64) -> Result<Text, NoMemory>
    ensures { IfOk result (λ text. text ≡ signed_decimal n) }
{
    Ok(Text::from(format!(in alloc; "{n}")?))
}

/// The word as eight hexadecimal digits in lower case, the highest first. It takes no memory.
#[tactic(auto, unfolding(crate::specs::Number::hex_word_of))]
pub fn hex_word(word: u32) -> [u8; 8]
    ensures { result ≡ hex_word_of word }
{
    [
        last_digit(word >> 28),
        last_digit(word >> 24),
        last_digit(word >> 20),
        last_digit(word >> 16),
        last_digit(word >> 12),
        last_digit(word >> 8),
        last_digit(word >> 4),
        last_digit(word),
    ]
}

/// The same as a text.
///
/// # Errors
///
/// [`NoMemory`].
pub fn hex_text(alloc: Global, word: u32) -> Result<Text, NoMemory>
    ensures { IfOk result (λ text. text ≡ hex_word_of word) }
{
    let mut text = String::new(alloc);
    for digit in hex_word(word) {
        text.push(char::from(digit))?;
    }
    Ok(Text::from(text))
}

/// The word read as a signed number of 32 bits, -2^31 to 2^31 - 1. It takes no memory.
pub fn signed32(word: u32) -> i64
    ensures { result ≡ cast_signed w32 word }
{
    i64::from(word.cast_signed())
}

/// The word read as an unsigned number, 0 to 2^32 - 1. It takes no memory.
pub fn unsigned32(word: u32) -> i64
    ensures { result ≡ pos word }
{
    i64::from(word)
}

fn last_digit(word: u32) -> u8
    ensures { result ≡ hex_digit_of (word % 16) }
{
    let digit = (word % 16) as u8;
    if digit < 10 {
        b'0' + digit
    } else {
        b'a' - 10 + digit
    }
}
