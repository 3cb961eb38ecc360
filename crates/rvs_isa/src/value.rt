// What a single entry says.
ghost use Rattle.std.specs.Prelude.{◌≡◌, option_map};
ghost use Rattle.rvs_tree.specs.TreeView.{view};
ghost use Rattle.rvs_isa.specs.Entries.{only_member, number_in, isa_in, is_xlen, truth_in};

use crate::isa_text::{Extensions, read_isa_text};
use crate::refusal::IsaKind;
use rvs_base::natural_below;
use rvs_tree::Tree;

/// The member of a list of one.
pub fn only_member(tree: &Tree) -> Option<&Tree>
    ensures { option_map (λ t. view t.now) result ≡ only_member (view tree.now) }
{
    if tree.is_list() && tree.len() == 1 {
        Some(tree.item(0))
    } else {
        None
    }
}

/// The number below 2^32 that a scalar writes in decimal digits, or in `0x` and hexadecimal digits.
pub fn number_in(tree: &Tree) -> Option<u32>
    ensures { result ≡ number_in (view tree.now) }
{
    if !tree.is_scalar() {
        return None;
    }
    match natural_below(1 << 32, tree.text().as_bytes()) {
        Some(number) => Some(number as u32),
        None => None,
    }
}

/// The extensions that a scalar names.
///
/// # Errors
///
/// `BadIsaText` where it is no scalar, or as `read_isa_text` says.
pub fn isa_in(tree: &Tree) -> Result<Extensions, IsaKind>
    ensures { result ≡ isa_in (view tree.now) }
{
    if tree.is_scalar() {
        read_isa_text(tree.text())
    } else {
        Err(IsaKind::BadIsaText)
    }
}

/// Whether the tree is the list of the one scalar 32.
pub fn is_xlen(tree: &Tree) -> bool
    ensures { result ≡ is_xlen (view tree.now) }
{
    match only_member(tree) {
        Some(member) => member.is_scalar() && member.text() == "32",
        None => false,
    }
}

/// The truth value that a scalar writes in one of its six spellings.
pub fn truth_in(tree: &Tree) -> Option<bool>
    ensures { result ≡ truth_in (view tree.now) }
{
    if !tree.is_scalar() {
        return None;
    }
    match tree.text() {
        "true" | "True" | "TRUE" => Some(true),
        "false" | "False" | "FALSE" => Some(false),
        _ => None,
    }
}
