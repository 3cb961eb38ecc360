// The lines of a log, each by itself.
ghost use Rattle.std.specs.Prelude.{◌≡◌, ◌<◌, IfSome, true};
ghost use Rattle.std.specs.Option.{option_copied, option_map};
ghost use Rattle.rvs_insn.specs.Fields.{insn_of_word};
ghost use Rattle.rvs_log.specs.Grammar.{after_brackets, after_core};
ghost use Rattle.rvs_log.specs.Grammar.{commit_log};
ghost use Rattle.rvs_log.specs.Grammar.{first_write, pc_and_word, reading_of};
ghost use Rattle.rvs_log.specs.Grammar.{sail_log, Says, write_at, write_if};
ghost use Rattle.rvs_log.specs.Grammar.{write_line};
ghost use Rattle.rvs_log.specs.Parts as part;
ghost use Rattle.rvs_log.specs.Read.{said, IsDecoded, IsOf};

use crate::plain::{plain_commit, plain_line, plain_sail, plain_store, plain_words, plain_write};
use crate::tokens::{byte_at, capitals, digits, register, spaces, token_end, without_spaces};
use crate::words::word_at;
use rvs_insn::{Insn, decode};
use rvs_machine::Commit;

/// A line of a log that says an instruction. It borrows the line.
#[derive(Clone, Copy)]
pub struct Record<'l> {
    pub line: &'l [u8],
    /// Its address.
    pub pc: u32,
    /// Its word.
    pub word: u32,
    /// What the word decodes to.
    pub insn: Option<Insn>,
    /// What the line itself says was written.
    pub commit: Option<Commit>,
}

/// What a line of a log is.
#[derive(Clone, Copy)]
pub enum Line<'l> {
    /// An instruction.
    Insn(Record<'l>),
    /// A word written by the instruction before it.
    Commit(Commit),
    /// Anything else.
    Other,
}

/// An instruction's address and word, and what follows.
#[inline(always)]
fn address_and_word(text: &[u8]) -> Option<(u32, u32, &[u8])>
    ensures { option_map (λ found. (found.0, found.1, found.2.now)) result ≡ pc_and_word text.now }
{
    match plain_words(text) {
        Some(found) => Some(found),
        None => any_address_and_word(text),
    }
}

/// The word in parentheses that follows an address, and what follows both.
#[inline(always)]
fn word_and_end(pc: u32, text: &[u8]) -> Option<(u32, u32, &[u8])>
    ensures { option_map (λ found. (found.0, found.1, found.2.now)) result
        ≡ part.word_and_end pc text.now }
{
    let (word, rest) = word_at(text)?;
    let rest = byte_at(rest, b')')?;
    let rest = token_end(rest)?;
    Some((pc, word, rest))
}

/// The same with any spaces and digits.
#[tactic(auto, unfolding(crate::specs::Grammar::pc_and_word))]
#[inline(never)]
fn any_address_and_word(text: &[u8]) -> Option<(u32, u32, &[u8])>
    ensures { option_map (λ found. (found.0, found.1, found.2.now)) result ≡ pc_and_word text.now }
{
    let (pc, rest) = word_at(text)?;
    let rest = spaces(rest)?;
    let rest = byte_at(rest, b'(')?;
    word_and_end(pc, rest)
}

/// The word that a register got, after spaces, up to the end of its token.
#[inline(always)]
fn value_after(reg: u8, text: &[u8]) -> Option<Commit>
    requires { reg < 32 }
    ensures { result ≡ part.value_after reg text.now }
{
    let rest = spaces(text)?;
    let (value, rest) = word_at(rest)?;
    let _ = token_end(rest)?;
    Some(Commit { reg, value })
}

/// A register and the word written to it, at the front.
#[tactic(auto, unfolding(crate::specs::Grammar::write_at))]
fn write(text: &[u8]) -> Option<Commit>
    ensures { result ≡ write_at text.now }
{
    let rest = byte_at(text, b'x')?;
    let (reg, rest) = register(without_spaces(rest))?;
    value_after(reg, rest)
}

/// The same, where a token begins there.
fn write_if_fresh(fresh: bool, text: &[u8]) -> Option<Commit>
    ensures { result ≡ write_if fresh text.now }
{
    if fresh { write(text) } else { None }
}

/// The first write among the tokens of a text. A store has none.
#[inline(never)]
fn late_written(text: &[u8]) -> Option<Commit>
    ensures { result ≡ first_write true text.now }
{
    match plain_store(text) {
        Some(_) => None,
        None => any_written(text),
    }
}

/// The same. Mostly the text begins with it.
#[inline(always)]
fn written(text: &[u8]) -> Option<Commit>
    ensures { result ≡ first_write true text.now }
{
    match text {
        [] => None,
        _ => match plain_write(text) {
            Some(commit) => Some(commit),
            None => late_written(text),
        },
    }
}

/// The same, token by token.
#[inline(never)]
fn any_written(text: &[u8]) -> Option<Commit>
    ensures { result ≡ first_write true text.now }
{
    let mut fresh = true;
    let mut rest = text;
    while let [first, after @ ..] = rest {
        match write_if_fresh(fresh, rest) {
            Some(commit) => return Some(commit),
            None => {
                fresh = *first == b' ';
                rest = after;
            },
        }
    }
    None
}

/// What follows a colon and a privilege with spaces after each.
#[inline(always)]
fn colon_and_privilege(text: &[u8]) -> Option<&[u8]>
    ensures { option_copied result ≡ part.colon_and_privilege text.now }
{
    let rest = byte_at(text, b':')?;
    let rest = spaces(rest)?;
    match rest {
        [b'0'..=b'3', rest @ ..] => spaces(rest),
        _ => None,
    }
}

/// What follows the privilege of a commit log's line.
#[tactic(auto, unfolding(crate::specs::Grammar::after_core))]
#[inline(never)]
fn core_front(line: &[u8]) -> Option<&[u8]>
    ensures { option_copied result ≡ after_core line.now }
{
    let [b'c', b'o', b'r', b'e', rest @ ..] = line else {
        return None;
    };
    let rest = spaces(rest)?;
    let rest = digits(rest)?;
    colon_and_privilege(rest)
}

/// The address and the word that a line of a commit log says, and what follows them, with any hart
/// and privilege and any spaces.
#[inline(never)]
fn any_line(line: &[u8]) -> Option<(u32, u32, &[u8])>
    ensures { option_map (λ found. (found.0, found.1, found.2.now)) result
        ≡ part.core_and_words line.now }
{
    let rest = core_front(line)?;
    address_and_word(rest)
}

/// The same. Most lines are of one hart in machine mode.
#[inline(always)]
fn core_and_words(line: &[u8]) -> Option<(u32, u32, &[u8])>
    ensures { option_map (λ found. (found.0, found.1, found.2.now)) result
        ≡ part.core_and_words line.now }
{
    match plain_line(line) {
        Some(found) => Some(found),
        None => any_line(line),
    }
}

/// A line of a commit log.
#[inline(always)]
fn commit_log_line(line: &[u8]) -> Option<Record<'_>>
    ensures said { option_map (λ r. Says r.pc r.word r.commit) result ≡ commit_log line.now }
    ensures whole { IfSome result (λ r. r.line.now ≡ line.now) }
    ensures decoded { IfSome result (λ r. r.insn ≡ insn_of_word r.word) }
{
    let (pc, word, rest) = core_and_words(line)?;
    let commit = written(rest);
    // Last, so that what the word decodes to is at hand where it is counted.
    let insn = decode(word);
    Some(Record {
        line,
        pc,
        word,
        insn,
        commit,
    })
}

/// What follows capital letters in brackets, a colon and spaces.
#[inline(always)]
fn capitals_and_colon(text: &[u8]) -> Option<&[u8]>
    ensures { option_copied result ≡ part.capitals_and_colon text.now }
{
    let rest = byte_at(text, b'[')?;
    let rest = capitals(rest)?;
    let rest = byte_at(rest, b']')?;
    let rest = byte_at(rest, b':')?;
    spaces(rest)
}

#[tactic(auto, unfolding(crate::specs::Grammar::after_brackets))]
fn sail_front(line: &[u8]) -> Option<&[u8]>
    ensures { option_copied result ≡ after_brackets line.now }
{
    let rest = byte_at(line, b'[')?;
    let rest = digits(rest)?;
    let rest = byte_at(rest, b']')?;
    let rest = spaces(rest)?;
    capitals_and_colon(rest)
}

/// The address and the word that a line of a Sail log says, and what follows them, with any
/// privilege and any spaces.
#[inline(never)]
fn any_sail(line: &[u8]) -> Option<(u32, u32, &[u8])>
    ensures { option_map (λ found. (found.0, found.1, found.2.now)) result
        ≡ part.brackets_and_words line.now }
{
    let rest = sail_front(line)?;
    address_and_word(rest)
}

/// The same. Most lines are in machine mode.
#[inline(always)]
fn brackets_and_words(line: &[u8]) -> Option<(u32, u32, &[u8])>
    ensures { option_map (λ found. (found.0, found.1, found.2.now)) result
        ≡ part.brackets_and_words line.now }
{
    match plain_sail(line) {
        Some(found) => Some(found),
        None => any_sail(line),
    }
}

/// A line of a Sail log.
#[inline(always)]
fn sail_log_line(line: &[u8]) -> Option<Record<'_>>
    ensures said { option_map (λ r. Says r.pc r.word r.commit) result ≡ sail_log line.now }
    ensures whole { IfSome result (λ r. r.line.now ≡ line.now) }
    ensures decoded { IfSome result (λ r. r.insn ≡ insn_of_word r.word) }
{
    let (pc, word, _) = brackets_and_words(line)?;
    Some(Record {
        line,
        pc,
        word,
        insn: decode(word),
        commit: None,
    })
}

/// The word that a register got, after an arrow, to the end of the line.
#[inline(always)]
fn arrow_and_value(reg: u8, text: &[u8]) -> Option<Commit>
    requires { reg < 32 }
    ensures { result ≡ part.arrow_and_value reg text.now }
{
    let [b'<', b'-', rest @ ..] = text else {
        return None;
    };
    let rest = spaces(rest)?;
    let (value, rest) = word_at(rest)?;
    match without_spaces(rest) {
        [] => Some(Commit { reg, value }),
        _ => None,
    }
}

/// A line that says a write alone, with any spaces and digits.
#[tactic(auto, unfolding(crate::specs::Grammar::write_line))]
#[inline(never)]
fn any_commit(line: &[u8]) -> Option<Commit>
    ensures { result ≡ write_line line.now }
{
    let rest = byte_at(line, b'x')?;
    let (reg, rest) = register(rest)?;
    let rest = spaces(rest)?;
    arrow_and_value(reg, rest)
}

/// A line that says a write alone.
#[inline(always)]
fn commit_line(line: &[u8]) -> Option<Commit>
    ensures { result ≡ write_line line.now }
{
    match plain_commit(line) {
        Some(commit) => Some(commit),
        None => any_commit(line),
    }
}

/// What a line of a log says: an instruction, as Spike's commit log or a Sail log writes it; a word
/// written by the instruction before it, `xN <- 0x..`; or nothing that is read here. The line has
/// no line feed and no carriage return at its end. It takes no memory. Each type of readers has its
/// own code, which is compiled into their loop.
#[inline(always)]
pub fn read_line_for<Reader>(line: &[u8]) -> Line<'_>
    ensures said { said result ≡ reading_of line.now }
    ensures whole { IsOf line.now result }
    ensures decoded { IsDecoded result }
{
    let first = match line {
        [] => return Line::Other,
        [first, ..] => *first,
    };
    match first {
        b'c' => match commit_log_line(line) {
            Some(record) => Line::Insn(record),
            None => Line::Other,
        },
        b'[' => match sail_log_line(line) {
            Some(record) => Line::Insn(record),
            None => Line::Other,
        },
        b'x' => match commit_line(line) {
            Some(commit) => Line::Commit(commit),
            None => Line::Other,
        },
        _ => Line::Other,
    }
}

/// The same for any reader.
pub fn read_line(line: &[u8]) -> Line<'_>
    ensures said { said result ≡ reading_of line.now }
    ensures whole { IsOf line.now result }
    ensures decoded { IsDecoded result }
{
    read_line_for::<()>(line)
}
