// Lines of eight hexadecimal digits, by `hex`.
ghost use Rattle.std.specs.Prelude.{◌≡◌, ◌≤◌, ◌<◌, ◌+◌, ◌*◌, ◌^◌, IfSome, Some, length};
ghost use Rattle.rvs_base.specs.Number.{hex_word_of};
ghost use Rattle.rvs_sig.specs.Digits.{AreWorths, worth_of};
ghost use Rattle.rvs_sig.specs.Words.{HasLine};

/// What a byte that is no digit is worth: more than any word.
const NO_DIGIT: u64 = 0x1_0000_0000;

/// What each byte is worth as a hexadecimal digit of either case. A table has no branch that
/// depends on the digit.
pub(crate) fn worths() -> [u64; 256]
    ensures { AreWorths result }
{
    let mut worths = [NO_DIGIT; 256];
    for byte in 0..256 {
        worths[byte] = worth(byte as u8);
    }
    worths
}

/// What a byte is worth, as `hex` decodes it.
fn worth(byte: u8) -> u64
    ensures { result ≡ worth_of byte }
{
    let digits = [b'0', byte];
    let mut decoded = [0; 1];
    match hex::decode_to_slice(digits.as_slice(), &mut decoded) {
        Ok(()) => u64::from(decoded[0]),
        Err(_) => NO_DIGIT,
    }
}

/// The word of a line of eight digits, where one stands at the front, and the text after its line
/// feed.
#[inline(always)]
pub(crate) fn digits_line<'a>(worths: &[u64; 256], text: &'a [u8]) -> Option<(u32, &'a [u8])>
    requires { AreWorths worths.now }
    ensures line { IfSome result (λ found. HasLine text.now (Some found.0) found.1.now) }
    ensures shorter { IfSome result (λ found. length found.1.now < length text.now) }
{
    match text {
        [a, b, c, d, e, f, g, h, end, rest @ ..] => {
            let high = four_digits(worths, *a, *b, *c, *d);
            let low = four_digits(worths, *e, *f, *g, *h);
            let number = 0x1_0000 * high + low;
            if *end == b'\n' && number < NO_DIGIT {
                Some((number as u32, rest))
            } else {
                None
            }
        },
        _ => None,
    }
}

/// What four digits are worth together.
#[inline(always)]
fn four_digits(worths: &[u64; 256], a: u8, b: u8, c: u8, d: u8) -> u64
    requires { AreWorths worths.now }
    ensures value { result
        ≡ 16 * (16 * (16 * worth_of a + worth_of b) + worth_of c) + worth_of d }
    ensures low { result ≤ 2 ^ 45 }
{
    let three = 16 * (16 * worth_in(worths, a) + worth_in(worths, b)) + worth_in(worths, c);
    16 * three + worth_in(worths, d)
}

#[tactic(auto, using(crate::proofs::Worths::worth_low))]
#[inline(always)]
fn worth_in(worths: &[u64; 256], byte: u8) -> u64
    requires { AreWorths worths.now }
    ensures value { result ≡ worth_of byte }
    ensures low { result ≤ 2 ^ 32 }
{
    worths[usize::from(byte)]
}

/// The eight digits of a word, in lower case, the highest place first.
pub(crate) fn word_digits(word: u32) -> [u8; 8]
    ensures { result ≡ hex_word_of word }
{
    let bytes = word.to_be_bytes();
    let mut digits = [0; 8];
    hex::encode_to_slice(bytes.as_slice(), &mut digits).unwrap();
    digits
}
