// A host in memory.
ghost use Rattle.std.specs.Prelude.{◌≡◌, ◌+◌, ◌^◌, ◌<◌, ◌↔◌, ℕ, true, List, None, Some, IfSome};
ghost use Rattle.std.specs.Prelude.{IfNone, IfOk, IfErr, OnOk, OnErr, IsErr, IsTrue, Contains};
ghost use Rattle.std.specs.Prelude.{bytes_eq, string_bytes, length, take, min, position};
ghost use Rattle.rvs_base.specs.Faults.{raised};
ghost use Rattle.rvs_base.specs.Host.{IsClosed, ReadsOnly, Opens, OpenCause, Takes, Tells};
ghost use Rattle.rvs_base.specs.Host.{WritesOnly, MaySpoil, written, with_file, device_words};
ghost use Rattle.rvs_base.specs.Host.{RunsOnly, RunsDevice, FailsRun, IsUnread};
ghost use Rattle.rvs_memory.specs.Memory.{HasReason, HasRunReason, IsAnswered};
ghost use Rattle.rvs_memory.specs.Memory.{IsCounted, IsNumbered};
ghost use Rattle.rvs_memory.specs.Memory.{held, new_host, told_by};
ghost use Rattle.rvs_memory.specs.Cursor.{rest_of};

use crate::answers::Answer;
use crate::memory_run::{perform_run, place_of, store};
use rvs_base::{Bytes, DeviceRun, Failed, Host, Items, NoMemory, OpenFault, Text};
use std::alloc::Global;
use std::marker::Model;

/// Files by name, each with its bytes.
pub type Files = Items<(Text, Bytes)>;

/// The place of an open file, and how much of it was taken.
#[derive(Drop, Clone, Copy)]
struct Cursor {
    file: usize,
    taken: usize,
}

/// A host that keeps its files in memory and tells them, and whose device runs are answered from a
/// list. Calls of [`Host`] are numbered from 0, and those whose number is listed fail.
#[derive(Drop)]
pub struct MemoryHost {
    files: Files,
    cursor: Option<Cursor>,
    fail: Items<u64>,
    calls: u64,
    answers: Items<Answer>,
    runs: Items<DeviceRun>,
    read_faults: u64,
    write_faults: u64,
    run_faults: u64,
    openings: u64,
    taken: u64,
    starved: u64,
}

impl Model for MemoryHost {
    ghost use Rattle.std.specs.Prelude.{is_some};
    ghost use Rattle.rvs_memory.specs.Memory.{MemoryHostState};
    ghost use Rattle.rvs_memory.specs.Cursor.{rest_of};

    ghost Value = { MemoryHostState };

    ghost view = { λ h. record {
      files = h.files;
      is_open = is_some h.cursor;
      rest = rest_of h.files h.cursor;
      read_faults = h.read_faults;
      write_faults = h.write_faults;
      run_faults = h.run_faults;
      openings = h.openings;
      taken = h.taken;
      answers = h.answers;
      runs = h.runs;
      calls = h.calls;
      fail = h.fail;
      starved = h.starved;
    } };
}

impl MemoryHost {
    /// A host with these files, whose names are distinct, and these answers to its device runs, the
    /// first of them first. It takes no memory, and later takes what it needs from the allocator of
    /// `fail`.
    pub fn new(files: Files, fail: Items<u64>, answers: Items<Answer>) -> Self
        ensures start { result ≡ new_host files fail answers }
        ensures tells { Tells (told_by result) (held files) }
        ensures closed { IsClosed (told_by result) }
    {
        let runs = Items::new(fail.allocator());
        MemoryHost {
            files,
            cursor: None,
            fail,
            calls: 0,
            answers,
            runs,
            read_faults: 0,
            write_faults: 0,
            run_faults: 0,
            openings: 0,
            taken: 0,
            starved: 0,
        }
    }

    /// How many calls failed for want of memory.
    pub fn starved(&self) -> u64
        ensures { result ≡ self.now.starved }
    {
        self.starved
    }

    /// The device runs so far, the first of them first.
    pub fn runs(&self) -> &[DeviceRun]
        ensures { result.now ≡ self.now.runs }
    {
        self.runs.as_slice()
    }

    /// The bytes of the file of this name, where there is one.
    pub fn file(&self, name: &str) -> Option<&[u8]>
        ensures there { IfSome result (λ bytes. held self.now.files name.now ≡ Some bytes.now) }
        ensures absent { IfNone result (held self.now.files name.now ≡ None) }
    {
        let place = place_of(self.files.as_slice(), name)?;
        Some(self.files.as_slice()[place].1.as_slice())
    }

    /// Counts a call, and says whether it is to fail.
    fn begins_to_fail(&mut self) -> bool
        ensures listed { IsTrue result ↔ Contains self.old.fail self.old.calls }
        ensures counted { self.new ≡ record self.old { calls = raised self.old.calls } }
    {
        let fails = self.fail.as_slice().contains(&self.calls);
        self.calls = self.calls.saturating_add(1);
        fails
    }
}

fn rest<'a>(files: &'a [(Text, Bytes)], cursor: &Cursor) -> &'a [u8]
    ensures value { result.now ≡ rest_of files.now (Some cursor.now) }
    ensures fits { cursor.now.taken + length result.now < 2 ^ 64 }
{
    let taken = cursor.taken;
    match files.get(cursor.file) {
        None => &[],
        Some((_, bytes)) => {
            let bytes = bytes.as_slice();
            &bytes[taken.min(bytes.len())..]
        },
    }
}

fn copy_front(from: &[u8], to: &mut [u8]) -> usize
    ensures count { result ≡ min (length from.now) (length to.old) }
    ensures front { take result to.new ≡ take result from.now }
{
    let count = from.len().min(to.len());
    to[..count].copy_from_slice(&from[..count]);
    count
}

impl Host for MemoryHost {
    ghost use Rattle.rvs_memory.specs.Memory.{told_by};

    ghost state = { told_by };

    fn open_read(&mut self, name: &str) -> Result<(), OpenFault>
        ensures reads_only { ReadsOnly (told_by self.old) (told_by self.new) }
        ensures opened { OnOk result (Opens name.now (told_by self.old) (told_by self.new)) }
        ensures closed { OnErr result (IsClosed (told_by self.new)) }
        ensures unread { OnErr result (IsUnread (told_by self.old) (told_by self.new)) }
        ensures cause { IfErr result (OpenCause name.now (told_by self.old) (told_by self.new)) }
        ensures unfaulted { OnOk result (self.new.read_faults ≡ self.old.read_faults) }
        ensures fails { (result ≡ Err OpenFault.Failed) ↔ Contains self.old.fail self.old.calls }
        ensures counted { IsCounted self.old self.new }
    {
        let fails = self.begins_to_fail();
        self.cursor = None;
        if fails {
            self.read_faults = self.read_faults.saturating_add(1);
            return Err(OpenFault::Failed);
        }
        match place_of(self.files.as_slice(), name) {
            None => Err(OpenFault::NoFile),
            Some(file) => {
                self.cursor = Some(Cursor { file, taken: 0 });
                self.openings = self.openings.saturating_add(1);
                Ok(())
            },
        }
    }

    fn take(&mut self, buf: &mut [u8]) -> Result<usize, Failed>
        requires open { self.old.is_open ≡ true }
        requires room { 0 < length buf.old }
        ensures reads_only { ReadsOnly (told_by self.old) (told_by self.new) }
        ensures taken { IfOk result (Takes buf.new (told_by self.old) (told_by self.new)) }
        ensures closed { OnErr result (IsClosed (told_by self.new)) }
        ensures unread { OnErr result (IsUnread (told_by self.old) (told_by self.new)) }
        ensures cause { OnErr result (self.new.read_faults ≡ raised self.old.read_faults) }
        ensures unfaulted { OnOk result (self.new.read_faults ≡ self.old.read_faults) }
        ensures fails { IsErr result ↔ Contains self.old.fail self.old.calls }
        ensures counted { IsCounted self.old self.new }
    {
        if self.begins_to_fail() {
            self.cursor = None;
            self.read_faults = self.read_faults.saturating_add(1);
            return Err(Failed);
        }
        let Some(cursor) = self.cursor else {
            return Ok(0);
        };
        let count = copy_front(rest(self.files.as_slice(), &cursor), buf);
        self.cursor = Some(Cursor {
            file: cursor.file,
            taken: cursor.taken + count,
        });
        self.taken = self.taken.saturating_add(count as u64);
        Ok(count)
    }

    fn write_file(&mut self, name: &str, bytes: &[u8]) -> Result<(), Failed>
        ensures writes_only { WritesOnly (told_by self.old) (told_by self.new) }
        ensures written { OnOk result
            ((told_by self.new).files ≡ written name.now bytes.now (told_by self.old).files) }
        ensures spoilt { OnErr result
            (MaySpoil name.now bytes.now (told_by self.old).files (told_by self.new).files) }
        ensures closed { IsClosed (told_by self.new) }
        ensures cause { OnErr result (self.new.write_faults ≡ raised self.old.write_faults) }
        ensures unfaulted { OnOk result (self.new.write_faults ≡ self.old.write_faults) }
        ensures listed { Contains self.old.fail self.old.calls → IsErr result }
        ensures reason { OnErr result (HasReason self.old self.new) }
        ensures fed { OnOk result (self.new.starved ≡ self.old.starved) }
        ensures numbered { IsNumbered self.old self.new }
    {
        let fails = self.begins_to_fail();
        self.cursor = None;
        if fails {
            self.write_faults = self.write_faults.saturating_add(1);
            return Err(Failed);
        }
        match store(self.fail.allocator(), &mut self.files, name, bytes) {
            Ok(()) => Ok(()),
            Err(NoMemory) => {
                self.starved = self.starved.saturating_add(1);
                self.write_faults = self.write_faults.saturating_add(1);
                Err(Failed)
            },
        }
    }

    fn run_device(&mut self, words: &[String], test: &str, signature: &str) -> Result<i32, Failed>
        requires some { 0 < length words.now }
        ensures runs_only { RunsOnly (told_by self.old) (told_by self.new) }
        ensures ran { IfOk result (RunsDevice (device_words words.now) test.now signature.now
            (told_by self.old) (told_by self.new)) }
        ensures failed { OnErr result
            (FailsRun signature.now (told_by self.old) (told_by self.new)) }
        ensures closed { IsClosed (told_by self.new) }
        ensures cause { OnErr result (self.new.run_faults ≡ raised self.old.run_faults) }
        ensures unfaulted { OnOk result (self.new.run_faults ≡ self.old.run_faults) }
        ensures listed { Contains self.old.fail self.old.calls → IsErr result }
        ensures answered { IfOk result (IsAnswered signature.now self.old self.new) }
        ensures reason { OnErr result (HasRunReason self.old self.new) }
        ensures fed { OnOk result (self.new.starved ≡ self.old.starved) }
        ensures numbered { IsNumbered self.old self.new }
    {
        let fails = self.begins_to_fail();
        self.cursor = None;
        let made = self.runs.as_slice().len();
        if fails || made >= self.answers.as_slice().len() {
            self.run_faults = self.run_faults.saturating_add(1);
            return Err(Failed);
        }
        let alloc = self.fail.allocator();
        let answer = &self.answers.as_slice()[made];
        let files = &mut self.files;
        match perform_run(alloc, files, &mut self.runs, answer, words, test, signature) {
            Ok(()) => Ok(answer.status),
            Err(NoMemory) => {
                self.starved = self.starved.saturating_add(1);
                self.run_faults = self.run_faults.saturating_add(1);
                Err(Failed)
            },
        }
    }
}
