// Names of labels, and keys.
ghost use Rattle.std.specs.Prelude.{◌≡◌, ◌≤◌, ◌<◌, ◌∷◌, zero, max, length, drop, take};
ghost use Rattle.std.specs.List.{list_all, list_any};
ghost use Rattle.rvs_points.specs.Keys as spec;
ghost use Rattle.rvs_abstract.specs.Calls as words;

use rvs_abstract::{name_length, without_spaces};

fn is_name_byte(c: u8) -> bool
    ensures { result ≡ spec.is_name_byte c }
{
    c.is_ascii_alphanumeric() || c == b'_' || c == b'-' || c == b'.'
}

fn are_name_bytes(text: &[u8]) -> bool
    ensures { result ≡ list_all spec.is_name_byte text.now }
{
    text.iter().all(|c| is_name_byte(*c))
}

/// Whether a text may name a label: 1 to 64 letters, digits, `_`, `-` and `.`, the first no `-`
/// and no `.`.
pub fn is_label_name(text: &[u8]) -> bool
    ensures { result ≡ spec.is_label_name text.now }
{
    match text {
        [first, ..] => {
            (first.is_ascii_alphanumeric() || *first == b'_')
                && are_name_bytes(text)
                && text.len() <= 64
        }
        [] => false,
    }
}

/// Whether all characters of a key are printable ASCII.
pub fn is_printable(key: &[u8]) -> bool
    ensures { result ≡ spec.is_printable key.now }
{
    key.iter().all(|c| 32 <= *c && *c <= 126)
}

fn is_left_out(c: u8) -> bool
    ensures { result ≡ spec.is_left_out c }
{
    c == b'&' || c == b'|' || c == b'^' || c == b'~' || c == b'/'
}

/// Whether two of this byte stand side by side.
fn has_double(byte: u8, text: &[u8]) -> bool
    ensures { result ≡ spec.has_double byte text.now }
{
    let mut rest = text;
    while let [first, after @ ..] = rest {
        if *first == byte && begins_with(byte, after) {
            return true;
        }
        rest = after;
    }
    false
}

fn begins_with(byte: u8, text: &[u8]) -> bool
    ensures { result ≡ spec.begins byte text.now }
{
    match text {
        [first, ..] => *first == byte,
        [] => false,
    }
}

fn is_operator_word(word: &[u8]) -> bool
    ensures { result ≡ spec.is_operator_word word.now }
{
    word == "and".as_bytes() || word == "or".as_bytes() || word == "not".as_bytes()
}

/// Whether a word that an opening parenthesis follows stands at the front of these bytes, of which
/// the first is given.
fn calls(first: u8, text: &[u8]) -> bool
    ensures { result ≡ spec.calls first text.now }
{
    let length = name_length(text);
    (first.is_ascii_alphabetic() || first == b'_')
        && !is_operator_word(&text[..length])
        && begins_with(b'(', without_spaces(&text[length..]))
}

/// What follows the word at the front, or its first byte where no word stands there.
#[tactic(auto, using(crate::proofs::Scans::rest_all))]
fn behind_word(text: &[u8]) -> &[u8]
    requires { 1 ≤ length text.now }
    ensures rest { result.now ≡ drop (max (words.name_length text.now) 1) text.now }
    ensures shorter { length result.now < length text.now }
{
    &text[name_length(text).max(1)..]
}

/// Whether a word that an opening parenthesis follows stands in the text.
#[tactic(auto, using(crate::proofs::Scans::call_more, crate::proofs::Scans::call_here))]
fn has_call(text: &[u8]) -> bool
    ensures { result ≡ spec.has_call zero text.now }
{
    let mut rest = text;
    while let [first, ..] = rest {
        if calls(*first, rest) {
            return true;
        }
        rest = behind_word(rest);
    }
    false
}

fn has_left_out(key: &[u8]) -> bool
    ensures { result ≡ list_any spec.is_left_out key.now }
{
    key.iter().any(|c| is_left_out(*c))
}

/// Whether a key of `op_comb` or `val_comb` uses an operator or a call that isn't read.
#[tactic(auto, unfolding(crate::specs::Keys::is_skipped))]
pub fn is_skipped(key: &[u8]) -> bool
    ensures { result ≡ spec.is_skipped key.now }
{
    has_left_out(key) || has_double(b'<', key) || has_double(b'>', key) || has_call(key)
}
