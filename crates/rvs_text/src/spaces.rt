// Texts without the spaces at their ends.
ghost use Rattle.std.specs.Prelude.{◌≡◌};
ghost use Rattle.rvs_text.specs.Spaces as spec;

use crate::bytes::solid_length;

/// The text without the spaces at its front.
pub fn without_spaces(text: &str) -> &str
    ensures { result.now ≡ spec.without_spaces text.now }
{
    for (i, byte) in text.as_bytes().iter().enumerate() {
        if *byte != b' ' {
            return &text[i..];
        }
    }
    ""
}

/// The text without the spaces at its end.
pub fn without_end(text: &str) -> &str
    ensures { result.now ≡ spec.without_end text.now }
{
    &text[..solid_length(text.as_bytes())]
}

/// The text without the spaces at both ends.
pub fn trimmed(text: &str) -> &str
    ensures { result.now ≡ spec.trimmed text.now }
{
    without_end(without_spaces(text))
}
