// What stands at the front of a text.
ghost use Rattle.std.specs.Prelude.{◌≡◌, ◌<◌, IfSome};
ghost use Rattle.std.specs.Option.{option_copied, option_map};
ghost use Rattle.rvs_log.specs.Grammar.{after_all, after_byte, after_some, after_spaces, at_end};
ghost use Rattle.rvs_log.specs.Grammar.{is_capital, register_at, spaced};
ghost use Rattle.rvs_text.specs.Bytes.{is_digit};

/// What follows a byte at the front.
#[inline(always)]
pub(crate) fn byte_at(text: &[u8], byte: u8) -> Option<&[u8]>
    ensures { option_copied result ≡ after_byte byte text.now }
{
    match text {
        [first, rest @ ..] if *first == byte => Some(rest),
        _ => None,
    }
}

/// The text without the spaces at its front.
#[inline(always)]
pub(crate) fn without_spaces(text: &[u8]) -> &[u8]
    ensures { result.now ≡ after_spaces text.now }
{
    let mut text = text;
    while let [first, rest @ ..] = text {
        if *first != b' ' {
            break;
        }
        text = rest;
    }
    text
}

/// What follows one or more spaces.
#[inline(always)]
pub(crate) fn spaces(text: &[u8]) -> Option<&[u8]>
    ensures { option_copied result ≡ spaced text.now }
{
    let rest = byte_at(text, b' ')?;
    Some(without_spaces(rest))
}

/// What follows one or more decimal digits.
#[inline(always)]
pub(crate) fn digits(text: &[u8]) -> Option<&[u8]>
    ensures { option_copied result ≡ after_some is_digit text.now }
{
    match text {
        [b'0'..=b'9', rest @ ..] => Some(without_digits(rest)),
        _ => None,
    }
}

/// The text without four digits at its front, if they are there.
#[inline(always)]
fn without_four(text: &[u8]) -> &[u8]
    ensures { after_all is_digit text.now ≡ after_all is_digit result.now }
{
    match text {
        [
            b'0'..=b'9',
            b'0'..=b'9',
            b'0'..=b'9',
            b'0'..=b'9',
            rest @ ..,
        ] => rest,
        _ => text,
    }
}

#[inline(always)]
fn without_digits(text: &[u8]) -> &[u8]
    ensures { result.now ≡ after_all is_digit text.now }
{
    let mut text = without_four(text);
    while let [first, rest @ ..] = text {
        if !(*first >= b'0' && *first <= b'9') {
            break;
        }
        text = rest;
    }
    text
}

/// What follows one or more capital letters.
pub(crate) fn capitals(text: &[u8]) -> Option<&[u8]>
    ensures { option_copied result ≡ after_some is_capital text.now }
{
    match text {
        [b'A'..=b'Z', rest @ ..] => Some(without_capitals(rest)),
        _ => None,
    }
}

fn without_capitals(text: &[u8]) -> &[u8]
    ensures { result.now ≡ after_all is_capital text.now }
{
    let mut text = text;
    while let [first, rest @ ..] = text {
        if !(*first >= b'A' && *first <= b'Z') {
            break;
        }
        text = rest;
    }
    text
}

/// The text, where it is empty or begins with a space.
#[inline(always)]
pub(crate) fn token_end(text: &[u8]) -> Option<&[u8]>
    ensures { option_copied result ≡ at_end text.now }
{
    match text {
        [] => Some(text),
        [b' ', ..] => Some(text),
        _ => None,
    }
}

/// A register's number, and what follows.
#[inline(always)]
pub(crate) fn register(text: &[u8]) -> Option<(u8, &[u8])>
    ensures value { option_map (λ found. (found.0, found.1.now)) result ≡ register_at text.now }
    ensures low { IfSome result (λ found. found.0 < 32) }
{
    match text {
        [tens @ b'0'..=b'9', ones @ b'0'..=b'9', rest @ ..] => {
            let number = 10 * (*tens - b'0') + (*ones - b'0');
            if number >= 10 && number < 32 {
                Some((number, rest))
            } else {
                None
            }
        },
        [ones @ b'0'..=b'9', rest @ ..] => Some((*ones - b'0', rest)),
        _ => None,
    }
}
