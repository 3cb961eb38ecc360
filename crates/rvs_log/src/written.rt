// Lines as they are written.
ghost use Rattle.std.specs.Prelude.{◌≡◌, ◌≤◌, ◌<◌, ◌+◌, ◌∷◌, ◌++◌, [], length, Some};
ghost use Rattle.std.specs.Str.{IsAscii};
ghost use Rattle.arrayvec.specs.ArrayString.{array_string_len};
ghost use Rattle.rvs_base.specs.Number.{hex_word_of};
ghost use Rattle.rvs_insn.specs.Fields.{insn_of_word};
ghost use Rattle.rvs_log.specs.Written.{padded, commit_text, line_of, HasWords, IsSmall};
ghost use Rattle.rvs_log.specs.Grammar.{reading_of, Says};

use crate::reading::Record;
use arrayvec::ArrayString;
use rvs_base::hex_word;
use rvs_insn::decode;
use rvs_machine::{Commit, Executed};

/// Adds ASCII text.
fn push_ascii(line: &mut ArrayString<64>, text: &[u8])
    requires room { array_string_len line.old + length text.now ≤ 64 }
    requires ascii { IsAscii text.now }
    ensures { line.new.bytes ≡ line.old.bytes ++ text.now }
{
    for byte in text {
        line.push(char::from(*byte));
    }
}

/// Adds a word in eight hexadecimal digits.
#[tactic(auto, using(crate::proofs::Ascii::hex_ascii, crate::proofs::Ascii::hex_length))]
fn push_word(line: &mut ArrayString<64>, word: u32)
    requires { array_string_len line.old + 8 ≤ 64 }
    ensures text { line.new.bytes ≡ line.old.bytes ++ hex_word_of word }
    ensures len { array_string_len line.new ≡ array_string_len line.old + 8 }
{
    let digits = hex_word(word);
    push_ascii(line, &digits);
}

/// Adds two characters of ASCII.
fn push_two(line: &mut ArrayString<64>, first: u8, second: u8)
    requires room { array_string_len line.old + 2 ≤ 64 }
    requires first { first < 128 }
    requires second { second < 128 }
    ensures text { line.new.bytes ≡ line.old.bytes ++ first ∷ second ∷ [] }
{
    line.push(char::from(first));
    line.push(char::from(second));
}

/// Adds the number of a register, in two places.
#[tactic(auto, using(crate::proofs::Ascii::padded_one, crate::proofs::Ascii::padded_two))]
fn push_register(line: &mut ArrayString<64>, register: u8)
    requires room { array_string_len line.old + 2 ≤ 64 }
    requires low { register < 32 }
    ensures text { line.new.bytes ≡ line.old.bytes ++ padded register }
    ensures len { array_string_len line.new ≡ array_string_len line.old + 2 }
{
    if register < 10 {
        push_two(line, b'0' + register, b' ');
    } else {
        push_two(line, b'0' + register / 10, b'0' + register % 10);
    }
}

/// Adds what an instruction wrote to its register.
fn push_commit(line: &mut ArrayString<64>, commit: Commit)
    requires { array_string_len line.old + 15 ≤ 64 }
    ensures { line.new.bytes ≡ line.old.bytes ++ commit_text (Some commit) }
{
    line.push_str(" x");
    push_register(line, commit.reg);
    line.push_str(" 0x");
    push_word(line, commit.value);
}

/// What the numbers of a commit are by their types. It reads them, and does nothing.
fn is_small(commit: Option<Commit>)
    ensures { IsSmall commit }
{
    if let Some(commit) = commit {
        let _reg = commit.reg;
        let _value = commit.value;
    }
}

/// What the numbers of an executed instruction are by their types. It reads them, and does nothing.
fn are_words(e: &Executed)
    ensures { HasWords e.now }
{
    let _pc = e.pc;
    let _word = e.word;
    is_small(e.commit);
}

/// The line as it is written.
fn line(e: &Executed) -> ArrayString<64>
    ensures { result.bytes ≡ line_of e.now }
{
    let mut line = ArrayString::new();
    line.push_str("core   0: 3 0x");
    push_word(&mut line, e.pc);
    line.push_str(" (0x");
    push_word(&mut line, e.word);
    line.push_str(")");
    if let Some(commit) = e.commit {
        push_commit(&mut line, commit);
    }
    line
}

/// What the line of an executed instruction says, as [`read_line`](crate::read_line) says it of
/// [`log_line`], without writing it: the record has no line.
pub fn log_record(e: &Executed) -> Record<'static>
    ensures said { reading_of (line_of e.now) ≡ Says result.pc result.word result.commit }
    ensures decoded { result.insn ≡ insn_of_word result.word }
    ensures words { HasWords e.now }
{
    are_words(e);
    Record {
        line: b"",
        pc: e.pc,
        word: e.word,
        insn: decode(e.word),
        commit: e.commit,
    }
}

/// How long the line of an executed instruction is, without its line feed.
pub fn log_line_length(e: &Executed) -> u64
    ensures { result ≡ length (line_of e.now) }
{
    is_small(e.commit);
    match e.commit {
        None => 35,
        Some(_) => 50,
    }
}

/// The line of an executed instruction in a log, without its line feed: its address and its word,
/// and what it wrote to its register. It takes no memory.
#[tactic(auto, using(crate::proofs::Back::reads_back))]
pub fn log_line(e: &Executed) -> ArrayString<64>
    ensures line { result.bytes ≡ line_of e.now }
    ensures back { reading_of result.bytes ≡ Says e.now.pc e.now.word e.now.commit }
    ensures words { HasWords e.now }
{
    are_words(e);
    line(e)
}
