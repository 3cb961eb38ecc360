// Symbols' names.
ghost use Rattle.std.specs.Prelude.{◌≡◌};
ghost use Rattle.std.specs.List.{list_all};
ghost use Rattle.rvs_asm_text.specs.Operands.{is_letter, begins_symbol, continues_symbol};
ghost use Rattle.rvs_asm_text.specs.Operands.{is_symbol, symbol_of};

use std::marker::Model;

/// The name of a symbol, borrowed from the text. Contracts see it as its bytes.
#[derive(Drop)]
pub struct Name<'t> {
    text: &'t str,
}

impl<'t> Model for Name<'t> {
    ghost use Rattle.std.specs.Prelude.{List, ℕ};

    ghost Value = { List ℕ };

    ghost view = { λ n. n.text.now };
}

impl<'t> Name<'t> {
    /// The name that a text is: a letter, `_` or `.`, and then letters, digits, `_`, `.` and `$`.
    pub fn read(text: &'t [u8]) -> Option<Self>
        ensures { result ≡ symbol_of text.now }
    {
        if !is_symbol_text(text) {
            return None;
        }
        match std::str::from_utf8(text) {
            Ok(text) => Some(Name { text }),
            Err(_) => None,
        }
    }

    /// The name as a text.
    pub fn as_str(&self) -> &'t str
        ensures { result.now ≡ self.now }
    {
        self.text
    }
}

/// Whether a byte may begin a symbol.
fn may_begin(c: u8) -> bool
    ensures { result ≡ begins_symbol c }
{
    c.is_ascii_alphabetic() || c == b'_' || c == b'.'
}

/// Whether a byte may stand in a symbol after its first.
fn may_continue(c: u8) -> bool
    ensures { result ≡ continues_symbol c }
{
    may_begin(c) || c.is_ascii_digit() || c == b'$'
}

/// Whether all bytes may stand in a symbol after its first.
fn all_continue(text: &[u8]) -> bool
    ensures { result ≡ list_all continues_symbol text.now }
{
    for c in text {
        if !may_continue(*c) {
            return false;
        }
    }
    true
}

/// Whether a text is a symbol's name.
fn is_symbol_text(text: &[u8]) -> bool
    ensures { result ≡ is_symbol text.now }
{
    match text {
        [first, rest @ ..] => may_begin(*first) && all_continue(rest),
        [] => false,
    }
}
