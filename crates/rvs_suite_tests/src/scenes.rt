// Scenes: lines that say what stands before a run, and lines that are told. An empty line ends a
// scene; a line without a verb says nothing.
//
//     file NAME TEXT              a file of the host
//     fill NAME COUNT PIECE END   a file of a piece so many times, and an end
//     bytes NAME DIGITS           a file of bytes, each as two hexadecimal digits
//     leaves TEXT                 the device's next run leaves this signature
//     untouched                   the device's next run leaves nothing
//     killed TEXT                 the device's next run leaves this signature and ends with -1
//     absent                      the device's next run takes the signature file away and ends
//                                 with -1
//     run WORDS                   a run on a host of these files
//     then WORDS                  one more on the host that the last run left
//     fails PLACE CALL WORDS      a run in which a call of `host`, `out` or `err` fails
//     turns PLACE COUNT WORDS     such a run for each of so many calls
//     stands PLACE COUNT NAMES|WORDS  the same, each with how much it leaves of these files of the
//                                 whole run, told where it isn't as the one before
//     fronts NAME WORDS           a run for each front of a file of the scene, told where it isn't
//                                 as the one before
//     slow WORDS                  a run whose output takes a byte at a time
//     show NAME                   what a file holds that the last run left
//     lines LINE NAME             what stands round a line of such a file: ten lines before it,
//                                 and three behind it
//     device                      the words of the device's runs
//     group TEXT                  a group file, in normal form or as it is refused
//     count TEXT                  how many points its first label has and skips, as it is written
//                                 and in normal form
//     points COUNT                how many points a label has with so many and one, or why its
//                                 file is refused
//     labels COUNT                the same of a file with so many labels
//     hits LOG|TEXT               how many instructions a log has, and how often it hits each
//                                 point of a group file
//     cuts LO:HI LOG FILE         the numbers of `propagate` for a group file: of a log that the
//                                 last run left, once for each of its places, cut there, and of
//                                 the same log byte by byte
//     splits LOG FILE             the same of the counts of `coverage`
use crate::runs::{NO_FAULTS, fault, faulty, tell_on};
use crate::slow::slow;
use crate::stage::{first_word, host_of, number};
use crate::{faults, groups, splitting, tracking};
use rvs_base::release;
use rvs_memory::MemoryHost;
use std::alloc::Global;
use std::mem;
use std::test::Fail;

/// A run for each of so many calls of a place, each of which fails in turn.
fn turns(alloc: Global, scene: &str, row: &str, report: &mut String) -> Result<(), Fail> {
    let (place, row) = first_word(row)?;
    let (count, words) = first_word(row)?;
    for call in 0..number(count)? {
        release(faulty(alloc, scene, words, fault(place, call), report)?);
    }
    Ok(())
}

/// The run of a scene in which a call fails, and the host that it leaves.
fn fails(alloc: Global, scene: &str, row: &str, report: &mut String) -> Result<MemoryHost, Fail> {
    let (place, row) = first_word(row)?;
    let (call, words) = first_word(row)?;
    faulty(alloc, scene, words, fault(place, number(call)?), report)
}

fn show(host: &MemoryHost, name: &str, report: &mut String) -> Result<(), Fail> {
    match host.file(name) {
        None => report.push_str("no file\n")?,
        Some(bytes) => {
            let text = str::from_utf8(bytes).map_err(|_| "no text")?;
            write!(report, "{text}[end]\n")?;
        },
    }
    Ok(())
}

/// Adds the lines of a text from ten before the first one that is this line to three behind it.
fn lines(text: &str, line: &str, report: &mut String) -> Result<(), Fail> {
    let at = text
        .lines()
        .position(|other| other == line)
        .ok_or("no line")?;
    let first = at.saturating_sub(10);
    for other in text.lines().skip(first).take(at - first + 4) {
        write!(report, "{other}\n")?;
    }
    Ok(())
}

fn show_lines(host: &MemoryHost, row: &str, report: &mut String) -> Result<(), Fail> {
    let (line, name) = first_word(row)?;
    let bytes = host.file(name).ok_or("no file")?;
    let text = str::from_utf8(bytes).map_err(|_| "no text")?;
    lines(text, line, report)
}

fn device(host: &MemoryHost, report: &mut String) -> Result<(), Fail> {
    for run in host.runs() {
        for word in run.words.as_slice() {
            write!(report, "{} ", word.as_str())?;
        }
        report.push_str("[end]\n")?;
    }
    Ok(())
}

/// Tells a line that runs words, and puts the host that it leaves in place of the last one.
fn run(
    alloc: Global,
    scene: &str,
    (verb, row): (&str, &str),
    host: &mut MemoryHost,
    report: &mut String,
) -> Result<(), Fail> {
    if verb == "then" {
        return tell_on(alloc, row, host, NO_FAULTS, report);
    }
    if verb == "run" {
        let left = faulty(alloc, scene, row, NO_FAULTS, report)?;
        release(mem::replace(host, left));
    }
    if verb == "fails" {
        let left = fails(alloc, scene, row, report)?;
        release(mem::replace(host, left));
    }
    if verb == "turns" {
        turns(alloc, scene, row, report)?;
    }
    if verb == "stands" {
        faults::tell_standing(alloc, scene, row, report)?;
    }
    if verb == "fronts" {
        faults::tell_fronts(alloc, scene, row, report)?;
    }
    if verb == "slow" {
        slow(alloc, scene, row, report)?;
    }
    Ok(())
}

/// Tells a line that asks for what is there.
fn look(
    alloc: Global,
    (verb, row): (&str, &str),
    host: &MemoryHost,
    report: &mut String,
) -> Result<(), Fail> {
    if verb == "show" {
        show(host, row, report)?;
    }
    if verb == "lines" {
        show_lines(host, row, report)?;
    }
    if verb == "device" {
        device(host, report)?;
    }
    if verb == "group" {
        groups::tell_file(alloc, row, report)?;
    }
    if verb == "count" {
        groups::tell_counts(alloc, row, report)?;
    }
    if verb == "hits" {
        groups::tell_log(alloc, row, report)?;
    }
    if verb == "cuts" {
        tracking::tell(alloc, row, host, report)?;
    }
    if verb == "splits" {
        splitting::tell(alloc, row, host, report)?;
    }
    if verb == "points" {
        groups::tell_points(alloc, row, report)?;
    }
    if verb == "labels" {
        groups::tell_labels(alloc, row, report)?;
    }
    Ok(())
}

fn play_line(
    alloc: Global,
    scene: &str,
    line: &str,
    host: &mut MemoryHost,
    report: &mut String,
) -> Result<(), Fail> {
    let words = line.split_once(' ').unwrap_or((line, ""));
    write!(report, "> {line}\n")?;
    run(alloc, scene, words, host, report)?;
    look(alloc, words, host, report)
}

fn play_on(
    alloc: Global,
    scene: &str,
    host: &mut MemoryHost,
    report: &mut String,
) -> Result<(), Fail> {
    for line in scene.lines() {
        play_line(alloc, scene, line, host, report)?;
    }
    report.push_str("\n")?;
    Ok(())
}

fn play(alloc: Global, scene: &str, report: &mut String) -> Result<(), Fail> {
    let mut host = host_of(alloc, scene, None)?;
    let told = play_on(alloc, scene, &mut host, report);
    release(host);
    told
}

/// What the scenes of a text tell.
pub fn tell(alloc: Global, text: &str) -> Result<String, Fail> {
    let mut report = String::new(alloc);
    for scene in text.split("\n\n") {
        play(alloc, scene, &mut report)?;
    }
    Ok(report)
}
