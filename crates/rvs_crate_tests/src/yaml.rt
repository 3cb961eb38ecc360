// Texts of the YAML profile, as their trees or as they are refused.
use rvs_base::{Fault, number_below, release};
use rvs_yaml::{Tree, YamlRefusal, parse};
use std::alloc::Global;
use std::test::Fail;

fn spell_refusal(refusal: &YamlRefusal, report: &mut String) -> Result<(), Fail> {
    write!(
        report,
        "yaml {} line {}\n",
        refusal.kind.number(),
        refusal.line
    )?;
    Ok(())
}

/// Adds the tree down to so many levels: members with a comma behind each, and `@` with the line
/// behind each node.
fn spell(tree: &Tree, levels: u32, report: &mut String) -> Result<(), Fail> {
    if levels == 0 {
        return Ok(());
    }
    if tree.is_scalar() {
        write!(report, "{}@{}", tree.text(), tree.line())?;
        return Ok(());
    }
    report.push_str(if tree.is_map() { "{" } else { "[" })?;
    for i in 0..tree.len() {
        if tree.is_map() {
            write!(report, "{}:", tree.key(i))?;
        }
        spell(tree.item(i), levels - 1, report)?;
        report.push_str(",")?;
    }
    report.push_str(if tree.is_map() { "}" } else { "]" })?;
    write!(report, "@{}", tree.line())?;
    Ok(())
}

fn spell_line(tree: &Tree, report: &mut String) -> Result<(), Fail> {
    spell(tree, 33, report)?;
    report.push_str("\n")?;
    Ok(())
}

/// Adds the tree of a text, or why it is refused.
pub fn tell_tree(alloc: Global, text: &str, report: &mut String) -> Result<(), Fail> {
    let read = parse(alloc, text.as_bytes());
    let told = match &read {
        Ok(tree) => spell_line(tree, report),
        Err(Fault::Refused(refusal)) => spell_refusal(refusal, report),
        Err(Fault::NoMemory) => Err(Fail::new("no memory")),
    };
    release(read);
    told
}

fn accept(report: &mut String) -> Result<(), Fail> {
    report.push_str("accepted\n")?;
    Ok(())
}

/// Adds whether bytes have a tree.
fn tell(alloc: Global, bytes: &[u8], report: &mut String) -> Result<(), Fail> {
    let read = parse(alloc, bytes);
    let told = match &read {
        Ok(_) => accept(report),
        Err(Fault::Refused(refusal)) => spell_refusal(refusal, report),
        Err(Fault::NoMemory) => Err(Fail::new("no memory")),
    };
    release(read);
    told
}

/// Adds whether a text has a tree.
pub fn tell_text(alloc: Global, text: &str, report: &mut String) -> Result<(), Fail> {
    tell(alloc, text.as_bytes(), report)
}

/// Adds whether bytes have a tree, which are hexadecimal numbers with a space between them.
pub fn tell_bytes(alloc: Global, row: &str, report: &mut String) -> Result<(), Fail> {
    let mut bytes = Vec::new(alloc);
    for digits in row.split(' ') {
        let byte = number_below(256, 16, digits.as_bytes()).ok_or("no byte")?;
        bytes.push(byte as u8)?;
    }
    tell(alloc, bytes.as_slice(), report)
}
