// Group files, as they are printed or refused.
use crate::stage::{number, plain};
use rvs_base::{Fault, Items, NoMemory, Refusal, Text, release};
use rvs_cgf::{CgfRefusal, Families, Groups, normal_text, read_groups};
use rvs_count::count_log;
use rvs_insn::{IsaSpec, USUAL_MEMORY};
use std::alloc::Global;
use std::test::Fail;

const CORE: IsaSpec = IsaSpec {
    e: false,
    m: false,
    a: false,
    zicsr: false,
    zifencei: false,
    misaligned: false,
    address_bits: 32,
    memory: USUAL_MEMORY,
};

fn printed(alloc: Global, file: &str) -> Result<Text, NoMemory> {
    let Ok(tree) = rvs_yaml::parse(alloc, file.as_bytes()) else {
        return Ok(Text::new(alloc));
    };
    match read_groups(alloc, &tree, &CORE, Families::Stated) {
        Ok(groups) => normal_text(alloc, &groups),
        Err(Fault::Refused(refusal)) => refusal.text(alloc),
        Err(Fault::NoMemory) => Err(NoMemory),
    }
}

/// Adds a file's normal form, or why it is refused.
pub fn tell_file(alloc: Global, row: &str, report: &mut String) -> Result<(), Fail> {
    let file = plain(alloc, row)?;
    let found = printed(alloc, file.as_str()).map_err(|_| "no memory")?;
    write!(report, "{}[end]\n", found.as_str())?;
    Ok(())
}

/// The groups of a file.
pub fn groups_of(alloc: Global, file: &str) -> Result<Groups, Fail> {
    let tree = rvs_yaml::parse(alloc, file.as_bytes()).map_err(|_| "no tree")?;
    let groups = read_groups(alloc, &tree, &CORE, Families::Stated).map_err(|_| "no groups")?;
    Ok(groups)
}

fn tell_first(groups: &Groups, report: &mut String) -> Result<(), Fail> {
    let label = groups.as_slice().first().ok_or("no label")?;
    let (points, skipped) = (
        label.points.as_slice().len(),
        label.skipped.as_slice().len(),
    );
    write!(report, "{points} points, {skipped} skipped\n")?;
    Ok(())
}

fn tell_again(alloc: Global, groups: &Groups, report: &mut String) -> Result<(), Fail> {
    tell_first(groups, report)?;
    let text = normal_text(alloc, groups).map_err(|_| "no memory")?;
    let again = groups_of(alloc, text.as_str())?;
    let told = tell_first(&again, report);
    release(again);
    told
}

/// Adds how many points the first label has and skips, and the same of the file's normal form.
pub fn tell_counts(alloc: Global, row: &str, report: &mut String) -> Result<(), Fail> {
    let file = plain(alloc, row)?;
    let groups = groups_of(alloc, file.as_str())?;
    let told = tell_again(alloc, &groups, report);
    release(groups);
    told
}

fn tell_numbers(instructions: u64, counts: &[u64], report: &mut String) -> Result<(), Fail> {
    write!(report, "{instructions} instructions")?;
    for count in counts {
        write!(report, ", {count}")?;
    }
    report.push_str("\n")?;
    Ok(())
}

fn tell_hits(alloc: Global, groups: &Groups, log: &[u8], report: &mut String) -> Result<(), Fail> {
    if log.len() > 1_000_000 {
        return Err(Fail::new("a long log"));
    }
    let counted = count_log(alloc, groups, Items::new(alloc), log).map_err(|_| "no memory")?;
    let told = tell_numbers(counted.instructions, counted.counts.as_slice(), report);
    release(counted);
    told
}

/// Adds how many instructions a log has, and how often it hits each point of a group file. A `|`
/// stands between the log and the file.
pub fn tell_log(alloc: Global, row: &str, report: &mut String) -> Result<(), Fail> {
    let (log, file) = row.split_once('|').ok_or("no log")?;
    let log = plain(alloc, log)?;
    let file = plain(alloc, file)?;
    let groups = groups_of(alloc, file.as_str())?;
    let told = tell_hits(alloc, &groups, log.as_bytes(), report);
    release(groups);
    told
}

fn many_points(alloc: Global, count: u64) -> Result<String, Fail> {
    let mut file = format!(in alloc; "l:\n  val_comb:\n")?;
    for i in 0..count {
        write!(file, "    'rs1_val == {i}': 0\n")?;
    }
    file.push_str("  mnemonics: {add: 0}\n")?;
    Ok(file)
}

fn many_labels(alloc: Global, count: u64) -> Result<String, Fail> {
    let mut file = String::new(alloc);
    for i in 0..count {
        write!(file, "l{i}: {{config: []}}\n")?;
    }
    Ok(file)
}

fn tell_refusal(alloc: Global, refusal: &CgfRefusal, report: &mut String) -> Result<(), Fail> {
    let why = refusal.text(alloc).map_err(|_| "no memory")?;
    write!(report, "{}\n", why.as_str())?;
    Ok(())
}

/// Adds how many points the first label of a file has and skips, or why the file is refused.
fn tell_read(alloc: Global, file: &str, report: &mut String) -> Result<(), Fail> {
    let tree = rvs_yaml::parse(alloc, file.as_bytes()).map_err(|_| "no tree")?;
    let found = read_groups(alloc, &tree, &CORE, Families::Stated);
    release(tree);
    match found {
        Ok(groups) => {
            let told = tell_first(&groups, report);
            release(groups);
            told
        },
        Err(Fault::Refused(refusal)) => {
            let told = tell_refusal(alloc, &refusal, report);
            release(refusal);
            told
        },
        Err(Fault::NoMemory) => Err(Fail::new("no memory")),
    }
}

/// A label with so many points and one more.
pub fn tell_points(alloc: Global, row: &str, report: &mut String) -> Result<(), Fail> {
    let file = many_points(alloc, number(row)?)?;
    tell_read(alloc, file.as_str(), report)
}

/// A file with so many labels.
pub fn tell_labels(alloc: Global, row: &str, report: &mut String) -> Result<(), Fail> {
    let file = many_labels(alloc, number(row)?)?;
    tell_read(alloc, file.as_str(), report)
}
