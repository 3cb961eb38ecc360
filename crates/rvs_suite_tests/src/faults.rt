// Runs of which a call fails or a file is cut off, and what files they leave.
use crate::runs::{NO_FAULTS, fault, faulty, tell_on};
use crate::stage::{first_word, host_of, number};
use rvs_base::{Host, release};
use rvs_memory::MemoryHost;
use std::alloc::Global;
use std::test::Fail;

/// Adds how much of a file of the whole run is there.
fn tell_file(left: Option<&[u8]>, whole: &[u8], report: &mut String) -> Result<(), Fail> {
    let Some(bytes) = left else {
        report.push_str("none")?;
        return Ok(());
    };
    let length = bytes.len();
    if bytes == whole {
        report.push_str("whole")?;
    } else if whole.starts_with(bytes) {
        write!(report, "first-{length}")?;
    } else {
        write!(report, "other-{length}")?;
    }
    Ok(())
}

fn tell_files(
    names: &str,
    left: &MemoryHost,
    whole: &MemoryHost,
    report: &mut String,
) -> Result<(), Fail> {
    report.push_str("left")?;
    for name in names.split(' ') {
        let all = whole.file(name).ok_or("no such file")?;
        write!(report, " {name}:")?;
        tell_file(left.file(name), all, report)?;
    }
    report.push_str("\n")?;
    Ok(())
}

/// What comes of a run of which a call fails, and its files.
fn with_fault(
    alloc: Global,
    scene: &str,
    (place, call): (&str, u64),
    (names, words): (&str, &str),
    whole: &MemoryHost,
) -> Result<String, Fail> {
    let mut told = String::new(alloc);
    let left = faulty(alloc, scene, words, fault(place, call), &mut told)?;
    let files = tell_files(names, &left, whole, &mut told);
    release(left);
    files?;
    Ok(told)
}

fn tell_turns(
    alloc: Global,
    scene: &str,
    (place, count): (&str, u64),
    asked: (&str, &str),
    whole: &MemoryHost,
    report: &mut String,
) -> Result<(), Fail> {
    let mut last = String::new(alloc);
    for call in 0..count {
        let told = with_fault(alloc, scene, (place, call), asked, whole)?;
        if told.as_str() != last.as_str() {
            write!(report, "from {call}: {told}")?;
        }
        last = told;
    }
    Ok(())
}

/// Adds what comes of a run for each of so many calls, of which that call fails, and what it leaves
/// of files of the whole run, where it isn't what came of the one before: a row has the place of
/// the calls, their number, the names of the files, and behind a `|` the words.
pub fn tell_standing(
    alloc: Global,
    scene: &str,
    row: &str,
    report: &mut String,
) -> Result<(), Fail> {
    let (place, row) = first_word(row)?;
    let (count, row) = first_word(row)?;
    let (names, words) = row.split_once('|').ok_or("no names")?;
    let turns = (place, number(count)?);
    let mut unread = String::new(alloc);
    let whole = faulty(alloc, scene, words, NO_FAULTS, &mut unread)?;
    let told = tell_turns(alloc, scene, turns, (names, words), &whole, report);
    release(whole);
    told
}

/// What comes of a run of a scene in which a file has these bytes.
fn with_file(
    alloc: Global,
    scene: &str,
    (name, bytes): (&str, &[u8]),
    words: &str,
) -> Result<String, Fail> {
    let mut host = host_of(alloc, scene, None)?;
    let mut told = String::new(alloc);
    let ran = match host.write_file(name, bytes) {
        Ok(()) => tell_on(alloc, words, &mut host, NO_FAULTS, &mut told),
        Err(_) => Err(Fail::new("no memory")),
    };
    release(host);
    ran?;
    Ok(told)
}

fn tell_each(
    alloc: Global,
    scene: &str,
    (name, bytes): (&str, &[u8]),
    words: &str,
    report: &mut String,
) -> Result<(), Fail> {
    let mut last = String::new(alloc);
    for length in 0..bytes.len() + 1 {
        let front = bytes.get(..length).ok_or("no front")?;
        let told = with_file(alloc, scene, (name, front), words)?;
        if told.as_str() != last.as_str() {
            write!(report, "from {length}: {told}")?;
        }
        last = told;
    }
    Ok(())
}

/// Adds what comes of a run for each front of a file of the scene, where it isn't what came of the
/// one before: a row has the name of the file, and the words.
pub fn tell_fronts(alloc: Global, scene: &str, row: &str, report: &mut String) -> Result<(), Fail> {
    let (name, words) = first_word(row)?;
    let whole = host_of(alloc, scene, None)?;
    let bytes = match whole.file(name) {
        Some(bytes) => bytes.to_vec(alloc),
        None => Ok(Vec::new(alloc)),
    };
    release(whole);
    let bytes = bytes?;
    tell_each(alloc, scene, (name, bytes.as_slice()), words, report)
}
