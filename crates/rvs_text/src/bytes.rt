// Bytes that needn't be text.
ghost use Rattle.std.specs.Prelude.{◌≡◌, ◌≤◌, ◌<◌, length, take, slice_index};
ghost use Rattle.std.specs.Option.{option_copied};
ghost use Rattle.rvs_text.specs.Bytes as spec;
ghost use Rattle.rvs_text.specs.Parts.{before_end};
ghost use Rattle.rvs_text.specs.Spaces.{trimmed, without_end, without_spaces};

/// Whether this is a letter or `_`.
pub fn begins_name(byte: u8) -> bool
    ensures { result ≡ spec.begins_name byte }
{
    byte.is_ascii_alphabetic() || byte == b'_'
}

/// Whether this is a letter, `_` or a digit.
pub fn continues_name(byte: u8) -> bool
    ensures { result ≡ spec.continues_name byte }
{
    begins_name(byte) || byte.is_ascii_digit()
}

/// How many bytes at the front are a name's.
pub fn name_length(text: &[u8]) -> usize
    ensures length { result ≡ spec.name_length text.now }
    ensures inside { result ≤ length text.now }
{
    for (i, byte) in text.iter().enumerate() {
        if !continues_name(*byte) {
            return i;
        }
    }
    text.len()
}

/// The bytes without the spaces at their front.
pub fn without_spaces(text: &[u8]) -> &[u8]
    ensures { result.now ≡ without_spaces text.now }
{
    let mut rest = text;
    while let [b' ', after @ ..] = rest {
        rest = after;
    }
    rest
}

/// How many bytes are left without the spaces at the end.
pub fn solid_length(text: &[u8]) -> usize
    ensures front { without_end text.now ≡ take result text.now }
    ensures inside { result ≤ length text.now }
    ensures space { result < length text.now → slice_index text.now result ≡ 32 }
{
    let mut length = text.len();
    while length > 0 && text[length - 1] == b' ' {
        length -= 1;
    }
    length
}

fn without_end(text: &[u8]) -> &[u8]
    ensures { result.now ≡ without_end text.now }
{
    &text[..solid_length(text)]
}

/// The bytes without the spaces at both ends.
pub fn trimmed(text: &[u8]) -> &[u8]
    ensures { result.now ≡ trimmed text.now }
{
    without_end(without_spaces(text))
}

/// What stands before this byte, where the last one is it.
pub fn before_end(byte: u8, text: &[u8]) -> Option<&[u8]>
    ensures { option_copied result ≡ before_end byte text.now }
{
    if !text.is_empty() && text[text.len() - 1] == byte {
        Some(&text[..text.len() - 1])
    } else {
        None
    }
}
