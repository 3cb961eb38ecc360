// Calls of families, each with its values or why it is refused.
use rvs_abstract::{Call, Families, Family4, len, read_call, value};
use std::test::Fail;

/// Adds how many values a family has, and the values.
fn spell_values(family: &Family4, report: &mut String) -> Result<(), Fail> {
    write!(report, "{}", len(family))?;
    for k in 0..len(family) {
        write!(report, " {}", value(family, k))?;
    }
    report.push_str("\n")?;
    Ok(())
}

/// Adds the values of two variables.
fn spell_pairs(first: &Family4, second: &Family4, report: &mut String) -> Result<(), Fail> {
    spell_values(first, report)?;
    spell_values(second, report)
}

/// Adds the values of a call, or the number of its refusal.
pub fn tell_call(families: Families, call: &str, report: &mut String) -> Result<(), Fail> {
    match read_call(families, call) {
        Ok(Call::Points(family)) => return spell_values(&family, report),
        Ok(Call::Pairs(first, second)) => return spell_pairs(&first, &second, report),
        Ok(Call::Skipped) => report.push_str("skipped\n")?,
        Err(refusal) => write!(report, "abstract {}\n", refusal.number())?,
    }
    Ok(())
}
