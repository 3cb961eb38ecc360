// A log whose hits are counted, cut at every place.
use crate::groups::groups_of;
use crate::stage::first_word;
use rvs_base::{Items, release};
use rvs_cgf::Groups;
use rvs_count::{Counter, new_counter};
use rvs_memory::MemoryHost;
use std::alloc::Global;
use std::test::Fail;

/// Adds how many instructions there were, and how often each point was hit.
fn tell_counts(counter: &Counter<'_>, report: &mut String) -> Result<(), Fail> {
    write!(report, "{} instructions", counter.told().instructions())?;
    for count in counter.told().counts() {
        write!(report, ", {count}")?;
    }
    report.push_str("\n")?;
    Ok(())
}

/// Feeds a log in two pieces.
fn feed_cut(counter: &mut Counter<'_>, log: &[u8], place: usize) -> Result<(), Fail> {
    let (front, back) = log.split_at_checked(place).ok_or("no place")?;
    counter.feed(front).map_err(|_| "too long")?;
    counter.feed(back).map_err(|_| "too long")?;
    counter.finish();
    Ok(())
}

/// Feeds a log once for each of its places, cut there, and adds the counts of all.
fn tell_cuts(counter: &mut Counter<'_>, log: &[u8], report: &mut String) -> Result<(), Fail> {
    for place in 0..log.len() {
        feed_cut(counter, log, place)?;
    }
    write!(report, "{} logs: ", log.len())?;
    tell_counts(counter, report)
}

/// Feeds a log byte by byte, and adds the counts.
fn tell_bytes(counter: &mut Counter<'_>, log: &[u8], report: &mut String) -> Result<(), Fail> {
    for place in 0..log.len() {
        let byte = log.get(place..place + 1).ok_or("no byte")?;
        counter.feed(byte).map_err(|_| "too long")?;
    }
    counter.finish();
    tell_counts(counter, report)
}

fn tell_log(alloc: Global, groups: &Groups, log: &[u8], report: &mut String) -> Result<(), Fail> {
    let mut cut = new_counter(alloc, groups, Items::new(alloc)).map_err(|_| "no memory")?;
    let told = tell_cuts(&mut cut, log, report);
    release(cut);
    told?;
    let mut bytes = new_counter(alloc, groups, Items::new(alloc)).map_err(|_| "no memory")?;
    let told = tell_bytes(&mut bytes, log, report);
    release(bytes);
    told
}

/// Adds the counts of a log of the host that comes once for each of its places, cut there, and of
/// one that comes byte by byte: a row has the name of the log and that of a group file.
pub fn tell(alloc: Global, row: &str, host: &MemoryHost, report: &mut String) -> Result<(), Fail> {
    let (log, file) = first_word(row)?;
    let log = host.file(log).ok_or("no log")?;
    let file = str::from_utf8(host.file(file).ok_or("no groups")?).map_err(|_| "no text")?;
    let groups = groups_of(alloc, file)?;
    let told = tell_log(alloc, &groups, log, report);
    release(groups);
    told
}
