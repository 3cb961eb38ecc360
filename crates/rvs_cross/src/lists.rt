// The three lists of a text.
ghost use Rattle.std.specs.Prelude.{◌≡◌, option_map};
ghost use Rattle.rvs_cross.specs.Lists as spec;
ghost use Rattle.rvs_cross.specs.ListsView.{lists_view};

use rvs_text::{around, behind_token, without_spaces};

/// What stands between the brackets of each list.
#[derive(Clone, Copy)]
pub struct Lists<'t> {
    /// Mnemonics.
    pub mnemonics: &'t str,
    /// Assignments of variables.
    pub assignments: &'t str,
    /// Expressions over registers.
    pub conditions: &'t str,
}

/// What stands between the brackets of a list at the front, and what is behind the list.
fn list_at(text: &str) -> Option<(&str, &str)>
    ensures { option_map (λ p. (p.0.now, p.1.now)) result ≡ spec.list_at text.now }
{
    around(']', behind_token("[", text)?)
}

/// The same, behind `::`.
fn next_list(text: &str) -> Option<(&str, &str)>
    ensures { option_map (λ p. (p.0.now, p.1.now)) result ≡ spec.next_list text.now }
{
    list_at(behind_token("::", text)?)
}

/// The three lists of a text.
pub fn split_lists(text: &str) -> Option<Lists<'_>>
    ensures { option_map lists_view result ≡ spec.lists text.now }
{
    let (mnemonics, rest) = list_at(text)?;
    let (assignments, rest) = next_list(rest)?;
    let (conditions, rest) = next_list(rest)?;
    if !without_spaces(rest).is_empty() {
        return None;
    }
    Some(Lists {
        mnemonics,
        assignments,
        conditions,
    })
}
