// The lines of a report that say how many instructions each of its logs has.
ghost use Rattle.std.specs.Prelude.{◌≡◌, ◌++◌, IfOk};
ghost use Rattle.rvs_coverage.specs.LogLines.{log_lines, lines_of_many};

use rvs_base::{NoMemory, Text};
use std::alloc::Global;

/// A report, with a line before it for each of its logs, where there are several.
///
/// # Errors
///
/// [`NoMemory`].
pub fn under_lines(
    alloc: Global,
    names: &[Text],
    ran: &[u64],
    report: Text,
) -> Result<Text, NoMemory>
    ensures { IfOk result (λ text. text ≡ lines_of_many names.now ran.now ++ report) }
{
    if names.len() < 2 {
        return Ok(report);
    }
    let mut text = log_lines(alloc, names, ran)?;
    text.push_str(report.as_str())?;
    Ok(text)
}

fn log_lines(alloc: Global, names: &[Text], ran: &[u64]) -> Result<Text, NoMemory>
    ensures { IfOk result (λ text. text ≡ log_lines names.now ran.now) }
{
    let mut text = Text::new(alloc);
    let mut left = ran;
    for name in names {
        let Some((count, more)) = left.split_first() else {
            return Ok(text);
        };
        let line = format!(in alloc; "log {count} {name}\n", name = name.as_str())?;
        text.push_str(line.as_str())?;
        left = more;
    }
    Ok(text)
}
