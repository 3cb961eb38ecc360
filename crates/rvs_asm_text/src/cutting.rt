// Where texts are cut.
ghost use Rattle.std.specs.Prelude.{◌≡◌, ◌<◌, ◌∷◌, [], length, MatchOption};
ghost use Rattle.rvs_asm_text.specs.Text.{is_blank, drop_blanks, trim_end, trim, first_word};
ghost use Rattle.rvs_asm_text.specs.Text.{after_word, lines_of};

use rvs_base::without_return;

/// Whether a byte is a space or a tab.
pub fn is_blank_byte(c: u8) -> bool
    ensures { result ≡ is_blank c }
{
    c == b' ' || c == b'\t'
}

/// The text without the blanks at its front.
fn without_front(text: &[u8]) -> &[u8]
    ensures { result.now ≡ drop_blanks text.now }
{
    let mut text = text;
    while let [c, rest @ ..] = text {
        if !is_blank_byte(*c) {
            break;
        }
        text = rest;
    }
    text
}

/// The text without the blanks at its end.
fn without_back(text: &[u8]) -> &[u8]
    ensures { result.now ≡ trim_end text.now }
{
    let mut end = text.len();
    while end > 0 && is_blank_byte(text[end - 1]) {
        end -= 1;
    }
    &text[..end]
}

/// The text without the blanks round it.
pub fn trimmed(text: &[u8]) -> &[u8]
    ensures { result.now ≡ trim text.now }
{
    without_back(without_front(text))
}

/// The text up to its first blank, and the text from there on without blanks at its front.
pub fn first_word_and_rest(text: &[u8]) -> (&[u8], &[u8])
    ensures word { result.0.now ≡ first_word text.now }
    ensures rest { result.1.now ≡ drop_blanks (after_word text.now) }
{
    for (i, c) in text.iter().enumerate() {
        if is_blank_byte(*c) {
            return (&text[..i], without_front(&text[i..]));
        }
    }
    (text, &[])
}

/// The first line of a text and the text after it; None where the text is empty. One carriage
/// return at a line's end is dropped, also at that of the last.
pub fn first_line(text: &[u8]) -> Option<(&[u8], &[u8])>
    ensures lines { MatchOption result (text.now ≡ [])
        (λ r. lines_of text.now ≡ r.0.now ∷ lines_of r.1.now) }
    ensures shorter { MatchOption result (text.now ≡ []) (λ r. length r.1.now < length text.now) }
{
    match rvs_base::first_line(text) {
        Some((line, rest)) => Some((without_return(line), rest)),
        None => None,
    }
}
