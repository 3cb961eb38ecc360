// Numbers from digits.
ghost use Rattle.std.specs.Prelude.{◌≡◌, ◌+◌, ◌*◌, ◌^◌, ◌<◌, ◌≤◌, IfSome};
ghost use Rattle.std.specs.Option.{SomeIff};
ghost use Rattle.std.specs.Char.{digit_value};
ghost use Rattle.rvs_base.specs.Digits as spec;

/// The number below a limit that one or more digits of a radix from 2 to 16 spell. Letters are
/// digits in either case, and zeros may lead. It takes no memory.
pub fn number_below(limit: u64, radix: u32, digits: &[u8]) -> Option<u64>
    requires some { 0 < limit }
    requires lower { 2 ≤ radix }
    requires upper { radix ≤ 16 }
    ensures value { result ≡ spec.number_below limit radix digits.now }
    ensures small { IfSome result (λ n. n < limit) }
{
    if digits.is_empty() {
        return None;
    }
    let mut value: u64 = 0;
    for byte in digits {
        value = with_digit(limit, radix, value, *byte)?;
    }
    Some(value)
}

/// The number that one or more digits, and so many at most, of a radix from 2 to 16 spell.
pub fn short_number(most: usize, radix: u32, digits: &[u8]) -> Option<u64>
    requires few { most ≤ 15 }
    requires lower { 2 ≤ radix }
    requires upper { radix ≤ 16 }
    ensures value { result ≡ spec.short_number most radix digits.now }
    ensures small { IfSome result (λ n. n < radix ^ most) }
{
    if digits.len() > most {
        return None;
    }
    number_below(u64::MAX, radix, digits)
}

/// The number below a limit that decimal digits, or `0x` and hexadecimal digits, spell.
pub fn natural_below(limit: u64, text: &[u8]) -> Option<u64>
    requires { 0 < limit }
    ensures value { result ≡ spec.natural_below limit text.now }
    ensures small { IfSome result (λ n. n < limit) }
{
    match text.strip_prefix(b"0x") {
        Some(digits) => number_below(limit, 16, digits),
        None => number_below(limit, 10, text),
    }
}

/// The number of the digits so far and this one.
fn with_digit(limit: u64, radix: u32, value: u64, byte: u8) -> Option<u64>
    requires lower { 2 ≤ radix }
    requires upper { radix ≤ 16 }
    ensures { SomeIff result
        ((digit_value byte < radix) × (value * radix + digit_value byte < limit))
        (value * radix + digit_value byte) }
{
    let digit = char::from(byte).to_digit(radix)?;
    let next = value
        .checked_mul(u64::from(radix))?
        .checked_add(u64::from(digit))?;
    if next < limit { Some(next) } else { None }
}
