// Lines as they are mostly written: words of eight digits, and one space where some may stand.
ghost use Rattle.std.specs.Prelude.{◌≡◌, ◌<◌, ◌+◌, ◌*◌, ◌∷◌, ◌++◌, [], IfSome, None, Some};
ghost use Rattle.std.specs.Prelude.{codes, true};
ghost use Rattle.rvs_log.specs.Grammar.{first_write, hex_at, hex_run, pc_and_word};
ghost use Rattle.rvs_log.specs.Grammar.{write_line};
ghost use Rattle.rvs_log.specs.Parts as part;
ghost use Rattle.rvs_log.specs.Written.{padded};

use crate::tokens::{byte_at, digits, register, token_end};
use crate::words::eight_digits;
use rvs_machine::Commit;

/// Four bytes as a word, the first as its lowest. So four are compared at once.
#[inline(always)]
fn joined(a: u8, b: u8, c: u8, d: u8) -> u32
    ensures { result ≡ a + 256 * b + 65536 * c + 16777216 * d }
{
    u32::from(a) + 256 * u32::from(b) + 65536 * u32::from(c) + 16_777_216 * u32::from(d)
}

/// Two bytes as a number, the first as its lower one.
#[inline(always)]
fn pair(a: u8, b: u8) -> u32
    ensures { result ≡ a + 256 * b }
{
    u32::from(a) + 256 * u32::from(b)
}

/// What follows the front that the lines of one hart in machine mode have, up to an address. Its
/// first byte chose the kind of the line, so that the others are joined without it.
#[inline(always)]
fn plain_core(line: &[u8]) -> Option<&[u8]>
    ensures { IfSome result (λ rest. line.now ≡ codes "core   0: 3 0x" ++ rest.now) }
{
    match line {
        [a, b, c, d, e, f, g, h, i, j, k, l, m, n, rest @ ..] => {
            if *a == b'c'
                && joined(*b, *c, *d, *e) == joined(b'o', b'r', b'e', b' ')
                && joined(*f, *g, *h, *i) == joined(b' ', b' ', b'0', b':')
                && joined(*j, *k, *l, *m) == joined(b' ', b'3', b' ', b'0')
                && *n == b'x'
            {
                Some(rest)
            } else {
                None
            }
        },
        _ => None,
    }
}

/// What follows `0x`.
#[inline(always)]
fn after_mark(text: &[u8]) -> Option<&[u8]>
    ensures { IfSome result (λ rest. text.now ≡ codes "0x" ++ rest.now) }
{
    match text {
        [a, b, rest @ ..] => {
            if pair(*a, *b) == pair(b'0', b'x') {
                Some(rest)
            } else {
                None
            }
        },
        _ => None,
    }
}

/// What follows a space, a bracket and `0x`.
#[inline(always)]
fn after_bracket(text: &[u8]) -> Option<&[u8]>
    ensures { IfSome result (λ rest. text.now ≡ codes " (0x" ++ rest.now) }
{
    match text {
        [a, b, c, d, rest @ ..] => {
            if joined(*a, *b, *c, *d) == joined(b' ', b'(', b'0', b'x') {
                Some(rest)
            } else {
                None
            }
        },
        _ => None,
    }
}

/// The word of eight hexadecimal digits at the front, and what follows them.
#[tactic(auto, using(crate::proofs::Straight::eight_spelled))]
#[inline(always)]
fn eight_at(text: &[u8]) -> Option<(u32, &[u8])>
    ensures { IfSome result (λ found. hex_run found.0 found.1.now ≡ (found.0, found.1.now)
        → hex_at (codes "0x" ++ text.now) ≡ Some (found.0, found.1.now)) }
{
    eight_digits(text)
}

/// An instruction's address without its `0x`, its word, and what follows, where they stand so.
#[inline(always)]
fn words_at(text: &[u8]) -> Option<(u32, u32, &[u8])>
    ensures { IfSome result (λ found.
        pc_and_word (codes "0x" ++ text.now) ≡ Some (found.0, found.1, found.2.now)) }
{
    let (pc, rest) = eight_at(text)?;
    let rest = after_bracket(rest)?;
    let (word, rest) = eight_at(rest)?;
    let rest = byte_at(rest, b')')?;
    let rest = token_end(rest)?;
    Some((pc, word, rest))
}

/// An instruction's address and word, and what follows, where they stand so.
#[tactic(auto, using(crate::proofs::Straight::marked_is))]
#[inline(always)]
pub(crate) fn plain_words(text: &[u8]) -> Option<(u32, u32, &[u8])>
    ensures { IfSome result (λ found.
        pc_and_word text.now ≡ Some (found.0, found.1, found.2.now)) }
{
    let rest = after_mark(text)?;
    words_at(rest)
}

/// The same behind the front of a line. Its length is tested first, since one test then stands for
/// those of the parts.
#[tactic(auto, using(crate::proofs::Straight::line_is))]
#[inline(always)]
pub(crate) fn plain_line(line: &[u8]) -> Option<(u32, u32, &[u8])>
    ensures { IfSome result (λ found.
        part.core_and_words line.now ≡ Some (found.0, found.1, found.2.now)) }
{
    if line.len() < 35 {
        return None;
    }
    let rest = plain_core(line)?;
    words_at(rest)
}

/// The register whose number two bytes spell, the second of them a space where it has one digit.
#[inline(always)]
fn numbered(tens: u8, ones: u8) -> Option<u8>
    ensures name { IfSome result (λ reg. tens ∷ ones ∷ [] ≡ padded reg) }
    ensures low { IfSome result (λ reg. reg < 32) }
{
    let high = tens.wrapping_sub(b'0');
    let low = ones.wrapping_sub(b'0');
    if ones == b' ' {
        if high < 10 { Some(high) } else { None }
    } else if high < 4 && high > 0 && low < 10 && 10 * high + low < 32 {
        Some(10 * high + low)
    } else {
        None
    }
}

/// The two bytes of a register's number behind a space and an `x`, and what follows them, a space
/// and `0x`.
#[inline(always)]
fn register_bytes(text: &[u8]) -> Option<(u8, u8, &[u8])>
    ensures { IfSome result (λ found.
        text.now ≡ codes " x" ++ (found.0 ∷ found.1 ∷ [] ++ (codes " 0x" ++ found.2.now))) }
{
    match text {
        [a, b, tens, ones, c, d, e, rest @ ..] => {
            if pair(*a, *b) == pair(b' ', b'x') && *c == b' ' && pair(*d, *e) == pair(b'0', b'x') {
                Some((*tens, *ones, rest))
            } else {
                None
            }
        },
        _ => None,
    }
}

/// The write that a text begins with.
#[tactic(auto, using(crate::proofs::Straight::write_is))]
#[inline(always)]
pub(crate) fn plain_write(text: &[u8]) -> Option<Commit>
    ensures { IfSome result (λ w. first_write true text.now ≡ Some w) }
{
    if text.len() < 15 {
        return None;
    }
    let (tens, ones, rest) = register_bytes(text)?;
    let reg = numbered(tens, ones)?;
    let (value, rest) = eight_at(rest)?;
    let _ = token_end(rest)?;
    Some(Commit { reg, value })
}

/// What follows an arrow between two spaces, and `0x`.
#[inline(always)]
fn after_arrow(text: &[u8]) -> Option<&[u8]>
    ensures { IfSome result (λ rest. text.now ≡ codes " <- 0x" ++ rest.now) }
{
    match text {
        [a, b, c, d, e, f, rest @ ..] => {
            if joined(*a, *b, *c, *d) == joined(b' ', b'<', b'-', b' ')
                && pair(*e, *f) == pair(b'0', b'x')
            {
                Some(rest)
            } else {
                None
            }
        },
        _ => None,
    }
}

/// The text, where it is empty.
#[inline(always)]
fn nothing(text: &[u8]) -> Option<&[u8]>
    ensures { IfSome result (λ rest. text.now ≡ []) }
{
    match text {
        [] => Some(text),
        _ => None,
    }
}

/// A line that says a write alone.
#[tactic(auto, using(crate::proofs::Straight::commit_is))]
#[inline(always)]
pub(crate) fn plain_commit(line: &[u8]) -> Option<Commit>
    ensures { IfSome result (λ w. write_line line.now ≡ Some w) }
{
    if line.len() < 16 {
        return None;
    }
    let rest = byte_at(line, b'x')?;
    let (reg, rest) = register(rest)?;
    let rest = after_arrow(rest)?;
    let (value, rest) = eight_at(rest)?;
    let _ = nothing(rest)?;
    Some(Commit { reg, value })
}

/// What follows the front that a Sail log has in machine mode, from behind its number on, up to an
/// address.
#[inline(always)]
fn after_mode(text: &[u8]) -> Option<&[u8]>
    ensures { IfSome result (λ rest. text.now ≡ codes "] [M]: 0x" ++ rest.now) }
{
    match text {
        [a, b, c, d, e, f, g, h, i, rest @ ..] => {
            if joined(*a, *b, *c, *d) == joined(b']', b' ', b'[', b'M')
                && joined(*e, *f, *g, *h) == joined(b']', b':', b' ', b'0')
                && *i == b'x'
            {
                Some(rest)
            } else {
                None
            }
        },
        _ => None,
    }
}

/// An instruction's address and word in a Sail log, and what follows.
#[tactic(auto, using(crate::proofs::Straight::sail_is))]
#[inline(always)]
pub(crate) fn plain_sail(line: &[u8]) -> Option<(u32, u32, &[u8])>
    ensures { IfSome result (λ found.
        part.brackets_and_words line.now ≡ Some (found.0, found.1, found.2.now)) }
{
    let rest = byte_at(line, b'[')?;
    let rest = digits(rest)?;
    if rest.len() < 30 {
        return None;
    }
    let rest = after_mode(rest)?;
    words_at(rest)
}

/// What follows the front of the access of a store, up to its address.
#[inline(always)]
fn after_access(text: &[u8]) -> Option<&[u8]>
    ensures { IfSome result (λ rest. text.now ≡ codes " mem 0x" ++ rest.now) }
{
    match text {
        [a, b, c, d, e, f, g, rest @ ..] => {
            if joined(*a, *b, *c, *d) == joined(b' ', b'm', b'e', b'm')
                && *e == b' '
                && pair(*f, *g) == pair(b'0', b'x')
            {
                Some(rest)
            } else {
                None
            }
        },
        _ => None,
    }
}

/// What follows a space and `0x`.
#[inline(always)]
fn after_gap(text: &[u8]) -> Option<&[u8]>
    ensures { IfSome result (λ rest. text.now ≡ codes " 0x" ++ rest.now) }
{
    match text {
        [a, b, c, rest @ ..] => {
            if *a == b' ' && pair(*b, *c) == pair(b'0', b'x') {
                Some(rest)
            } else {
                None
            }
        },
        _ => None,
    }
}

/// The end of a text that is the access of a store of a word, which writes no register.
#[tactic(auto, using(crate::proofs::Straight::store_is))]
#[inline(always)]
pub(crate) fn plain_store(text: &[u8]) -> Option<&[u8]>
    ensures { IfSome result (λ rest. first_write true text.now ≡ None) }
{
    if text.len() < 26 {
        return None;
    }
    let rest = after_access(text)?;
    let (_, rest) = eight_digits(rest)?;
    let rest = after_gap(rest)?;
    let (_, rest) = eight_digits(rest)?;
    nothing(rest)
}
