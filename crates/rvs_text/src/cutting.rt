// Parts of a text.
ghost use Rattle.std.specs.Prelude.{◌≡◌, ◌<◌, IfOk, length, map, option_map};
ghost use Rattle.rvs_text.specs.Parts as spec;

use crate::spaces::without_spaces;
use std::alloc::{AllocError, Global};

/// What stands behind these letters, where the text begins with them.
pub fn behind<'t>(letters: &str, text: &'t str) -> Option<&'t str>
    ensures { option_map (λ t. t.now) result ≡ spec.behind letters.now text.now }
{
    text.strip_prefix(letters)
}

/// The same, where spaces may stand before the letters.
pub fn behind_token<'t>(letters: &str, text: &'t str) -> Option<&'t str>
    ensures { option_map (λ t. t.now) result ≡ spec.behind_token letters.now text.now }
{
    behind(letters, without_spaces(text))
}

/// What stands before this byte, where the text ends with it.
pub fn before_end(byte: u8, text: &str) -> Option<&str>
    requires { byte < 128 }
    ensures { option_map (λ t. t.now) result ≡ spec.before_end byte text.now }
{
    let bytes = text.as_bytes();
    if !bytes.is_empty() && bytes[bytes.len() - 1] == byte {
        Some(&text[..text.len() - 1])
    } else {
        None
    }
}

/// What stands before and behind the first separator.
pub fn around(separator: char, text: &str) -> Option<(&str, &str)>
    requires { separator < 128 }
    ensures { option_map (λ p. (p.0.now, p.1.now)) result ≡ spec.around separator text.now }
{
    text.split_once(separator)
}

/// What stands before and behind these letters, where they stand first.
pub fn around_text<'t>(letters: &str, text: &'t str) -> Option<(&'t str, &'t str)>
    requires { 0 < length letters.now }
    ensures { option_map (λ p. (p.0.now, p.1.now)) result
        ≡ spec.around_text letters.now text.now }
{
    text.split_once(letters)
}

/// What stands between the separators.
///
/// # Errors
///
/// Want of memory.
pub fn parts(alloc: Global, separator: char, text: &str) -> Result<Vec<&str>, AllocError>
    requires { separator < 128 }
    ensures { IfOk result (λ v. map (λ t. t.now) v.items ≡ spec.parts separator text.now) }
{
    text.split(separator).collect(alloc)
}
