// Numbers.
ghost use Rattle.std.specs.Prelude.{◌≡◌};
ghost use Rattle.rvs_asm_text.specs.Numbers.{number_of};

use rvs_base::natural_below;

/// Absolute values are below this.
const LIMIT: u64 = 1 << 63;

/// The number that a text is, in decimal or after `0x`, with an optional minus sign; its absolute
/// value is below 2^63.
#[tactic(auto, unfolding(rvs_base::specs::Digits::digits_of))]
pub fn number(text: &[u8]) -> Option<i64>
    ensures { result ≡ number_of text.now }
{
    match text {
        [b'-', rest @ ..] => Some(-(natural_below(LIMIT, rest)? as i64)),
        _ => Some(natural_below(LIMIT, text)? as i64),
    }
}
