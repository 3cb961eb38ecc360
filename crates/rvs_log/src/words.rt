// Words in hexadecimal digits.
ghost use Rattle.std.specs.Prelude.{◌≡◌, ◌<◌, ◌≤◌, ◌==◌, ◌+◌, ◌*◌, ◌^◌, ◌∷◌, ℕ, List, IfSome, Some};
ghost use Rattle.std.specs.Prelude.{None, false, if◌then◌else◌, length};
ghost use Rattle.std.specs.Option.{option_map};
ghost use Rattle.rvs_log.specs.Grammar.{first_write, hex_at, hex_digits, hex_run, hex_value};

use crate::places::counted;

/// The value of a hexadecimal digit.
#[tactic(auto, using(crate::proofs::Values::value_is))]
#[inline(always)]
fn digit_value(byte: u8) -> Option<u32>
    ensures value { result ≡ hex_value byte }
    ensures small { IfSome result (λ d. d < 16) }
{
    let value = counted(0, byte);
    if value < 16 { Some(value as u32) } else { None }
}

/// What digits spell, where there is at least one.
#[inline(always)]
fn spelled(count: u32, value: u32, rest: &[u8]) -> Option<(u32, &[u8])>
    ensures { option_map {U = ℕ × List ℕ} (λ found. (found.0, found.1.now)) result
        ≡ (if count == 0 then None else Some (value, rest.now)) }
{
    if count == 0 {
        None
    } else {
        Some((value, rest))
    }
}

/// The number that four bytes spell, where each is a hexadecimal digit, and 2^32 or more where one
/// isn't.
#[inline(always)]
fn four_digits(a: u8, b: u8, c: u8, d: u8) -> u64
    ensures run { result < 2 ^ 32 → (v : ℕ) (bs : List ℕ) →
        hex_run v (a ∷ b ∷ c ∷ d ∷ bs) ≡ hex_run (65536 * v + result) bs }
    ensures later { result < 2 ^ 32 → (bs : List ℕ) →
        first_write false (a ∷ b ∷ c ∷ d ∷ bs) ≡ first_write false bs }
    ensures small { result < 2 ^ 32 → result < 65536 }
    ensures low { result < 2 ^ 45 }
{
    counted(3, a) + counted(2, b) + counted(1, c) + counted(0, d)
}

/// The number that the first eight bytes spell, where they are hexadecimal digits, and what follows
/// them. Most words of a log have as many.
#[inline(always)]
pub(crate) fn eight_digits(text: &[u8]) -> Option<(u32, &[u8])>
    ensures run { IfSome result (λ found. hex_run 0 text.now ≡ hex_run found.0 found.1.now) }
    ensures later { IfSome result (λ found.
        first_write false text.now ≡ first_write false found.1.now) }
    ensures count { IfSome result (λ found. 8 + length found.1.now ≡ length text.now) }
    ensures low { IfSome result (λ found. found.0 < 2 ^ 32) }
{
    match text {
        [a, b, c, d, e, f, g, h, rest @ ..] => {
            let high = four_digits(*a, *b, *c, *d);
            let low = four_digits(*e, *f, *g, *h);
            let value = 65536 * high + low;
            if value < 0x1_0000_0000 {
                Some((value as u32, rest))
            } else {
                None
            }
        },
        _ => None,
    }
}

/// The word that some digits spell with those that follow them, and what follows those.
#[inline(always)]
fn more_digits(value: u32, count: u32, rest: &[u8]) -> Option<(u32, &[u8])>
    requires { count ≤ 16 }
    ensures { (text : List ℕ) → hex_run 0 text ≡ hex_run value rest.now
        → count + length rest.now ≡ length text
        → option_map (λ found. (found.0, found.1.now)) result ≡ hex_digits text }
{
    let mut value = value;
    let mut count = count;
    let mut rest = rest;
    while let [first, after @ ..] = rest {
        let digit = match digit_value(*first) {
            None => return spelled(count, value, rest),
            Some(digit) => digit,
        };
        if value >= 0x1000_0000 || count >= 16 {
            return None;
        }
        value = 16 * value + digit;
        count += 1;
        rest = after;
    }
    spelled(count, value, &[])
}

/// The word that stands at the front in one to sixteen hexadecimal digits after `0x`, and what
/// follows it.
#[tactic(auto, unfolding(crate::specs::Grammar::hex_at))]
#[inline(always)]
pub(crate) fn word_at(text: &[u8]) -> Option<(u32, &[u8])>
    ensures { option_map (λ found. (found.0, found.1.now)) result ≡ hex_at text.now }
{
    match text {
        [b'0', b'x', rest @ ..] => match eight_digits(rest) {
            None => more_digits(0, 0, rest),
            Some((value, after)) => more_digits(value, 8, after),
        },
        _ => None,
    }
}
