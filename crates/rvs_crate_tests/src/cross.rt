// Texts of cross points, each with its places or why it is refused.
use rvs_base::{Fault, release};
use rvs_cross::{Cross, CrossRead, CrossRefusal, Place, in_order, parse_cross};
use std::alloc::Global;
use std::test::Fail;

fn spell_place(place: &Place, report: &mut String) -> Result<(), Fail> {
    match &place.ops {
        Some(ops) => write!(report, "{}", ops.as_slice().len())?,
        None => report.push_str("?")?,
    }
    for set in place.sets.as_slice() {
        write!(report, ",{:?}={:?}", set.variable, set.field)?;
    }
    if place.condition.is_some() {
        report.push_str(",if")?;
    }
    report.push_str(" ")?;
    Ok(())
}

/// Adds the places, each by the number of its mnemonics, its assignments, and whether it has an
/// expression.
fn spell_places(cross: &Cross, report: &mut String) -> Result<(), Fail> {
    for place in in_order(cross) {
        spell_place(place, report)?;
    }
    report.push_str("\n")?;
    Ok(())
}

/// Adds the number of a refusal, with what it names.
fn spell_refusal(why: &CrossRefusal, report: &mut String) -> Result<(), Fail> {
    write!(report, "cross {}", why.number())?;
    match why {
        CrossRefusal::UnassignedVariable { name } => write!(report, " {name}")?,
        CrossRefusal::UnknownMnemonic { name } => write!(report, " {name}")?,
        CrossRefusal::Expr(why) => {
            write!(report, " expr {} column {}", why.kind.number(), why.column)?;
        },
        _ => {},
    }
    report.push_str("\n")?;
    Ok(())
}

fn spell_read(read: &CrossRead, report: &mut String) -> Result<(), Fail> {
    match read {
        CrossRead::Read(cross) => spell_places(cross, report),
        CrossRead::Skipped => Ok(report.push_str("skipped\n")?),
    }
}

/// Adds the places of a cross point, or why it is refused.
pub fn tell_cross(alloc: Global, text: &str, report: &mut String) -> Result<(), Fail> {
    let read = parse_cross(alloc, text);
    let told = match &read {
        Ok(read) => spell_read(read, report),
        Err(Fault::Refused(why)) => spell_refusal(why, report),
        Err(Fault::NoMemory) => Err(Fail::new("no memory")),
    };
    release(read);
    told
}
