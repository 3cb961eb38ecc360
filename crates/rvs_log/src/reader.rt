// A log that comes in pieces.
ghost use Rattle.std.specs.Prelude.{◌≡◌, ◌<◌, ◌≤◌, ◌+◌, ◌^◌, ◌↔◌, ℕ, List, Some, [], ◌∷◌, ◌++◌};
ghost use Rattle.std.specs.Prelude.{IsErr, OnOk, OnErr, drop, length};
ghost use Rattle.rvs_log.specs.Cutting.{held_after};
ghost use Rattle.rvs_log.specs.Feeds.{Fed};
ghost use Rattle.rvs_log.specs.Grammar.{Reading};
ghost use Rattle.rvs_log.specs.Lines.{held_says, log_limit};
ghost use Rattle.rvs_log.specs.Streams.{told_all};
ghost use Rattle.rvs_log.specs.Taken.{IsTold, ended, state_for, taken, waiting_len, with_end};
ghost use Rattle.rvs_log.specs.Written.{line_of};

use crate::consumer::{Consumer, Executing};
use crate::follow::Follow;
use crate::written::log_line_length;
use rvs_machine::Executed;
use std::marker::Model;

/// No more bytes may be fed.
const MOST: u64 = 1 << 40;

/// More than 2^40 bytes were to be fed.
#[derive(Drop, Clone, Copy)]
pub struct LogTooLong;

/// A log that comes in pieces, and what takes its lines. It keeps no line but the one that is cut.
#[derive(Drop)]
pub struct Reader<C: Consumer> {
    told: C,
    follow: Follow,
    fed: u64,
}

impl<C: Consumer> Model for Reader<C> {
    ghost use Rattle.std.specs.Prelude.{◌≤◌, ◌+◌};
    ghost use Rattle.rvs_log.specs.Lines.{log_limit};
    ghost use Rattle.rvs_log.specs.Taken.{Taken, waiting_len};

    ghost Value = { Taken C };

    ghost view = { λ r. record { told = r.told; waiting = r.follow; fed = r.fed } };

    ghost invariant = { λ r. (C.count r.told + waiting_len r.follow ≤ r.fed)
        × (r.fed ≤ log_limit) };
}

/// The bytes from a place on.
fn back_of(bytes: &[u8], at: usize) -> &[u8]
    requires { at ≤ length bytes.now }
    ensures { result.now ≡ drop at bytes.now }
{
    &bytes[at..]
}

/// Takes more bytes.
fn take_all<C: Consumer>(told: &mut C, follow: &mut Follow, piece: &[u8])
    requires { C.count told.old + waiting_len follow.old + length piece.now ≤ log_limit }
    ensures told { told_all C.step told.old follow.old piece.now ≡ told.new }
    ensures waits { held_after follow.old piece.now ≡ follow.new }
    ensures low { C.count told.new + waiting_len follow.new
        ≤ C.count told.old + waiting_len follow.old + length piece.now }
{
    let mut rest = piece;
    'lines: loop {
        let cut = follow.next(rest);
        let used = cut.used;
        match cut.line {
            None => return,
            Some(line) => told.take_line(line),
        }
        rest = back_of(rest, used);
    }
}

/// Takes the bytes after the last line feed as a line, where there are any.
fn take_last<C: Consumer>(told: &mut C, follow: &mut Follow)
    requires { C.count told.old + waiting_len follow.old ≤ log_limit }
    ensures told { told.new ≡ C.step told.old (held_says follow.old) }
    ensures follow { follow.new ≡ Some [] }
{
    match follow.last() {
        None => {},
        Some(rest) => told.take_line(rest),
    }
}

impl<C: Consumer> Reader<C> {
    /// A reader that was fed nothing.
    pub fn new(told: C) -> Reader<C>
        requires { C.count told ≡ 0 }
        ensures { result ≡ taken told (Some []) 0 }
    {
        Reader {
            told,
            follow: Follow::new(),
            fed: 0,
        }
    }

    /// What took the lines.
    pub fn told(&self) -> &C
        ensures { result.now ≡ self.now.told }
    {
        &self.told
    }

    /// Takes the next bytes of the log, which may end anywhere in a line. It takes no memory.
    ///
    /// # Errors
    ///
    /// [`LogTooLong`] where more than 2^40 bytes would be fed; nothing changes.
    pub fn feed(&mut self, piece: &[u8]) -> Result<(), LogTooLong>
        ensures fed { OnOk result (Fed C.step self.old self.new piece.now) }
        ensures unchanged { OnErr result (self.new ≡ self.old) }
        ensures too_long { IsErr result ↔ (log_limit < self.old.fed + length piece.now) }
    {
        if piece.len() as u64 > MOST - self.fed {
            return Err(LogTooLong);
        }
        take_all(&mut self.told, &mut self.follow, piece);
        self.fed += piece.len() as u64;
        Ok(())
    }

    /// Takes the bytes after the last line feed as a line, where there are any; the next bytes
    /// begin a new line. It takes no memory.
    pub fn finish(&mut self)
        ensures end { self.new ≡ with_end C.step self.old }
        ensures state { (told : List Reading → C) → IsTold C.step told → (bytes : List ℕ) (n : ℕ)
            → self.old ≡ state_for told bytes n → self.new ≡ state_for told (ended bytes) n }
        ensures again { self.old.waiting ≡ Some [] → self.new ≡ self.old }
        ensures low { self.new.fed ≤ log_limit }
    {
        take_last(&mut self.told, &mut self.follow);
    }

    /// Takes a whole log of at most 2^40 bytes. It takes no memory.
    pub fn read_whole(&mut self, log: &[u8])
        requires new { self.old.fed ≡ 0 }
        requires short { length log.now ≤ log_limit }
        ensures { (told : List Reading → C) → IsTold C.step told → self.old ≡ state_for told [] 0
            → self.new ≡ state_for told (ended log.now) (length log.now) }
    {
        match self.feed(log) {
            Ok(()) => self.finish(),
            Err(_) => unreachable!(),
        }
    }

    /// Begins another log. It takes no memory.
    pub fn restart(&mut self, start: C::Start)
        ensures { self.new ≡ taken (C.begun self.old.told start) (Some []) 0 }
    {
        self.told.restart(start);
        self.follow = Follow::new();
        self.fed = 0;
    }
}

impl<C: Executing> Reader<C> {
    /// Takes the line of an executed instruction and its line feed, as [`Reader::feed`] takes
    /// their bytes, without writing them. No line is open before it, nor after it. It takes no
    /// memory.
    pub fn feed_executed(&mut self, executed: &Executed)
        requires begun { self.old.waiting ≡ Some [] }
        requires few { self.old.fed + 51 ≤ log_limit }
        ensures fed { Fed C.step self.old self.new (line_of executed.now ++ 10 ∷ []) }
        ensures low { self.new.fed ≤ self.old.fed + 51 }
        ensures begun { self.new.waiting ≡ Some [] }
    {
        self.told.take_executed(executed);
        self.fed += log_line_length(executed) + 1;
    }
}
