// A log whose hits are tracked, cut at every place.
use crate::groups::groups_of;
use crate::stage::first_word;
use rvs_base::{Window, number_below, release};
use rvs_cgf::Groups;
use rvs_memory::MemoryHost;
use rvs_prop::{Tracker, new_tracker};
use std::alloc::Global;
use std::test::Fail;

/// Adds how many instructions there were, and of each point how many of how many hits reached.
fn tell_numbers(tracker: &Tracker<'_>, report: &mut String) -> Result<(), Fail> {
    write!(report, "{} instructions", tracker.told().instructions())?;
    let trail = tracker.told();
    for (reached, hits) in trail.reached().iter().zip(trail.hits()) {
        write!(report, ", {reached} of {hits}")?;
    }
    report.push_str("\n")?;
    Ok(())
}

/// Feeds a log in two pieces.
fn feed_cut(tracker: &mut Tracker<'_>, log: &[u8], place: usize) -> Result<(), Fail> {
    let (front, back) = log.split_at_checked(place).ok_or("no place")?;
    tracker.feed(front).map_err(|_| "too long")?;
    tracker.feed(back).map_err(|_| "too long")?;
    tracker.finish();
    Ok(())
}

/// Feeds a log once for each of its places, cut there, and adds the numbers of all.
fn tell_cuts(tracker: &mut Tracker<'_>, log: &[u8], report: &mut String) -> Result<(), Fail> {
    for place in 0..log.len() {
        feed_cut(tracker, log, place)?;
    }
    write!(report, "{} logs: ", log.len())?;
    tell_numbers(tracker, report)
}

/// Feeds a log byte by byte, and adds the numbers.
fn tell_bytes(tracker: &mut Tracker<'_>, log: &[u8], report: &mut String) -> Result<(), Fail> {
    for place in 0..log.len() {
        let byte = log.get(place..place + 1).ok_or("no byte")?;
        tracker.feed(byte).map_err(|_| "too long")?;
    }
    tracker.finish();
    tell_numbers(tracker, report)
}

fn tell_log(
    alloc: Global,
    groups: &Groups,
    range: Window,
    log: &[u8],
    report: &mut String,
) -> Result<(), Fail> {
    let mut cut = new_tracker(alloc, groups, range).map_err(|_| "no memory")?;
    let told = tell_cuts(&mut cut, log, report);
    release(cut);
    told?;
    let mut bytes = new_tracker(alloc, groups, range).map_err(|_| "no memory")?;
    let told = tell_bytes(&mut bytes, log, report);
    release(bytes);
    told
}

fn address(text: &str) -> Result<u32, Fail> {
    let digits = text.strip_prefix("0x").ok_or("no address")?;
    let number = number_below(4_294_967_296, 16, digits.as_bytes()).ok_or("no number")?;
    Ok(number as u32)
}

/// Adds the numbers of a log of the host that comes once for each of its places, cut there, and of
/// one that comes byte by byte: a row has a range of addresses, the name of the log and that of a
/// group file.
pub fn tell(alloc: Global, row: &str, host: &MemoryHost, report: &mut String) -> Result<(), Fail> {
    let (range, names) = first_word(row)?;
    let (log, file) = first_word(names)?;
    let (lo, hi) = range.split_once(':').ok_or("no range")?;
    let (lo, hi) = (address(lo)?, address(hi)?);
    let range = Window { lo, hi };
    let log = host.file(log).ok_or("no log")?;
    let file = str::from_utf8(host.file(file).ok_or("no groups")?).map_err(|_| "no text")?;
    let groups = groups_of(alloc, file)?;
    let told = tell_log(alloc, &groups, range, log, report);
    release(groups);
    told
}
