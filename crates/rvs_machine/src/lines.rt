// The lines of a file.
ghost use Rattle.std.specs.Prelude.{◌≡◌, ◌<◌, length, MatchOption};
ghost use Rattle.rvs_machine.specs.FileLines.{after_feed, first_line, taken};

use rvs_base::{cut, without_return};
use std::marker::Model;

/// What is left of a file, and the number of the line that begins there, from 1. A line
/// feed ends each line but perhaps the last, and takes a carriage return before it along.
#[derive(Drop)]
pub(crate) struct Lines<'a> {
    rest: &'a [u8],
    number: u64,
}

impl<'a> Model for Lines<'a> {
    ghost use Rattle.std.specs.Prelude.{◌+◌, ◌<◌, ◌^◌, length};
    ghost use Rattle.rvs_machine.specs.FileLines.{Rest};

    ghost Value = { Rest };

    ghost view = { λ l. record { bytes = l.rest.now; line = l.number } };

    ghost invariant = { λ l. l.number + length l.rest.now < 2 ^ 64 };
}

impl<'a> Lines<'a> {
    pub(crate) fn new(bytes: &'a [u8]) -> Self
        ensures { result ≡ record { bytes = bytes.now; line = 1 } }
    {
        Lines {
            rest: bytes,
            number: 1,
        }
    }

    /// The number of the next line.
    pub(crate) fn number(&self) -> u64
        ensures { result ≡ self.now.line }
    {
        self.number
    }

    /// The next line, where one is left.
    pub(crate) fn take(&mut self) -> Option<&'a [u8]>
        ensures { MatchOption result (taken self.old ≡ None)
            (λ line. taken self.old ≡ Some (line.now, self.new)) }
    {
        if self.rest.is_empty() {
            return None;
        }
        let (line, rest) = first_and_rest(self.rest);
        self.rest = rest;
        self.number += 1;
        Some(line)
    }
}

/// The first line and what follows it.
fn first_and_rest(bytes: &[u8]) -> (&[u8], &[u8])
    ensures line { result.0.now ≡ first_line bytes.now }
    ensures rest { result.1.now ≡ after_feed bytes.now }
    ensures shorter { 0 < length bytes.now → length result.1.now < length bytes.now }
{
    match cut(bytes, b'\n') {
        (line, Some(rest)) => (without_return(line), rest),
        (line, None) => (line, &[]),
    }
}
