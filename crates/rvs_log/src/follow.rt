// Lines cut out of pieces, and lent.
ghost use Rattle.std.specs.Prelude.{◌≡◌, ◌+◌, ◌-◌, ◌<◌, ◌≤◌, ⊤, [], IfNone, IfSome, Some, drop};
ghost use Rattle.std.specs.Prelude.{false};
ghost use Rattle.std.specs.Prelude.{length, take};
ghost use Rattle.std.specs.Borrow.{follows_so, sem};
ghost use Rattle.std.specs.Option.{option_copied};
ghost use mathlib.Core.Option.{none};
ghost use Rattle.memchr.specs.Find.{IsFirstByte, is_byte};
ghost use Rattle.rvs_log.specs.contracts.follow.Follow.{the_row};
ghost use Rattle.rvs_log.specs.Cutting.{HasEnded, IsNextLine, held_after, last_of, lines_after};
ghost use Rattle.rvs_log.specs.Cutting.{one_or_none, unless_given, waiting};
ghost use Rattle.rvs_log.specs.Lines.{held_more};

use arrayvec::ArrayVec;
use memchr::memchr;
use rvs_base::without_return;
use std::marker::Model;

/// A line of more bytes, its carriage return counted, says nothing.
pub const LONGEST: usize = 4_096;

/// Cuts pieces of a log into lines. It keeps the bytes of a line whose line feed hasn't come, or a
/// mark where they are too many; and whether they were lent as a line.
#[derive(Drop)]
pub struct Follow {
    bytes: ArrayVec<u8, LONGEST>,
    too_long: bool,
    given: bool,
}

impl Model for Follow {
    ghost use Rattle.std.specs.Prelude.{Option, List, ℕ};
    ghost use Rattle.rvs_log.specs.Cutting.{unless_given, waiting};

    ghost Value = { Option (List ℕ) };

    ghost view = { λ f. unless_given f.given (waiting f.too_long f.bytes.items) };
}

/// The next line, and how many bytes of the piece were used.
#[derive(Clone, Copy)]
pub struct Cut<'f> {
    pub used: usize,
    pub line: Option<&'f [u8]>,
}

/// How a line ended.
#[derive(Clone, Copy)]
enum Ending {
    /// All of it is in the piece.
    Here,
    /// Its front waited.
    Waited,
    /// It is too long.
    Over,
}

/// Where the next line is.
#[derive(Clone, Copy)]
enum NextLine {
    /// From one place of the piece up to another.
    Here(usize, usize),
    /// In the bytes that waited, after so many of the piece.
    Held(usize),
    /// No line ends in the piece.
    Nowhere,
}

/// The place of the first line feed.
fn line_feed(bytes: &[u8]) -> Option<usize>
    ensures first { IsFirstByte (is_byte 10) bytes.now result }
    ensures within { IfSome result (λ end. end < length bytes.now) }
{
    memchr(b'\n', bytes)
}

/// Keeps more bytes of a line.
fn wait(bytes: &mut ArrayVec<u8, LONGEST>, too_long: &mut bool, more: &[u8])
    ensures { waiting too_long.new bytes.new.items
        ≡ held_more (waiting too_long.old bytes.old.items) more.now }
{
    if more.is_empty() {
        return;
    }
    if !*too_long && bytes.try_extend_from_slice(more).is_err() {
        *too_long = true;
    }
}

/// Nothing waits any more.
fn clear(bytes: &mut ArrayVec<u8, LONGEST>, too_long: &mut bool)
    ensures { waiting too_long.new bytes.new.items ≡ Some [] }
{
    bytes.clear();
    *too_long = false;
}

/// A line ends with these bytes.
fn end_line(bytes: &mut ArrayVec<u8, LONGEST>, too_long: &mut bool, line: &[u8]) -> Ending
    ensures { HasEnded (waiting too_long.old bytes.old.items) line.now
        too_long.new bytes.new.items result }
{
    if !*too_long && bytes.is_empty() {
        if line.len() <= LONGEST {
            return Ending::Here;
        }
        return Ending::Over;
    }
    wait(bytes, too_long, line);
    if *too_long {
        clear(bytes, too_long);
        return Ending::Over;
    }
    Ending::Waited
}

/// The bytes from a place on.
fn back_of(bytes: &[u8], at: usize) -> &[u8]
    requires { at ≤ length bytes.now }
    ensures { result.now ≡ drop at bytes.now }
{
    &bytes[at..]
}

/// The bytes before a place.
fn front_of(bytes: &[u8], end: usize) -> &[u8]
    requires { end ≤ length bytes.now }
    ensures { result.now ≡ take end bytes.now }
{
    &bytes[..end]
}

/// Goes on to the end of the next line that isn't too long.
#[inline(always)]
fn advance(bytes: &mut ArrayVec<u8, LONGEST>, too_long: &mut bool, piece: &[u8]) -> NextLine
    ensures { IsNextLine (waiting too_long.old bytes.old.items) piece.now
        too_long.new bytes.new.items result }
{
    let mut used: usize = 0;
    'lines: loop {
        let rest = back_of(piece, used);
        match line_feed(rest) {
            None => {
                wait(bytes, too_long, rest);
                return NextLine::Nowhere;
            },
            Some(end) => match end_line(bytes, too_long, front_of(rest, end)) {
                Ending::Here => return NextLine::Here(used, used + end),
                Ending::Waited => return NextLine::Held(used + end + 1),
                Ending::Over => used += end + 1,
            },
        }
    }
}

/// What was lent as a line waits no more.
fn begin(bytes: &mut ArrayVec<u8, LONGEST>, too_long: &mut bool, given: &mut bool)
    ensures waits { waiting too_long.new bytes.new.items
        ≡ unless_given given.old (waiting too_long.old bytes.old.items) }
    ensures given { given.new ≡ false }
{
    if *given {
        clear(bytes, too_long);
        *given = false;
    }
}

impl Follow {
    /// Nothing waits.
    pub fn new() -> Self
        ensures { result ≡ Some [] }
    {
        Follow {
            bytes: ArrayVec::new(),
            too_long: false,
            given: false,
        }
    }

    /// The next line that ends in the piece, without its carriage return, and how many bytes of the
    /// piece were used: those up to its line feed, and that. Lines longer
    /// than 4,096 bytes are passed over. Where none ends, all of the piece is used. It takes no
    /// memory.
    #[inline(always)]
    pub fn next<'f>(&'f mut self, piece: &'f [u8]) -> Cut<'f>
        ensures* leaves { sem 𝓛 (follows_so the_row the_row self.entry.ghost_name none (λ _ _. ⊤)
            (λ v. v ≡ held_after self.old (take result.used piece.now))) }
        ensures used { result.used ≤ length piece.now }
        ensures line { lines_after self.old (take result.used piece.now)
            ≡ one_or_none (option_copied result.line) }
        ensures ends { IfSome result.line
            (λ _. lines_after self.old (take (result.used - 1) piece.now) ≡ []) }
        ensures whole { IfNone result.line (result.used ≡ length piece.now) }
    {
        begin(&mut self.bytes, &mut self.too_long, &mut self.given);
        match advance(&mut self.bytes, &mut self.too_long, piece) {
            NextLine::Nowhere => Cut {
                used: piece.len(),
                line: None,
            },
            NextLine::Here(start, end) => {
                let line = front_of(back_of(piece, start), end - start);
                Cut {
                    used: end + 1,
                    line: Some(without_return(line)),
                }
            },
            NextLine::Held(used) => {
                self.given = true;
                Cut {
                    used,
                    line: Some(without_return(self.bytes.as_slice())),
                }
            },
        }
    }

    /// The line that the log ends with, without its carriage return, where it lacks a line feed and
    /// has 1 to 4,096 bytes. Nothing waits after it. It takes no memory.
    pub fn last(&mut self) -> Option<&[u8]>
        ensures* leaves { sem 𝓛 (follows_so the_row the_row self.entry.ghost_name none (λ _ _. ⊤)
            (λ v. v ≡ Some [])) }
        ensures line { option_copied result ≡ last_of self.old }
    {
        begin(&mut self.bytes, &mut self.too_long, &mut self.given);
        self.given = true;
        if self.too_long || self.bytes.is_empty() {
            None
        } else {
            Some(without_return(self.bytes.as_slice()))
        }
    }
}
