// The entries of a specification, and refusals at them.
ghost use Rattle.std.specs.Prelude.{◌≡◌, IfOk, map, option_map};
ghost use Rattle.rvs_base.specs.Answers.{Answers, AnswersWith, IfRefused};
ghost use Rattle.rvs_tree.specs.Data.{value_at};
ghost use Rattle.rvs_tree.specs.TreeView.{view};
ghost use Rattle.rvs_isa.specs.Entries.{entry_at};
ghost use Rattle.rvs_isa.specs.Check.{needed, is_a_map};
ghost use Rattle.rvs_isa.specs.Refusal.{path_text, refusal_at};

use crate::refusal::{IsaKind, IsaRefusal};
use rvs_base::{Fault, NoMemory, Text};
use rvs_tree::Tree;
use std::alloc::Global;

/// What a tree has at the end of a path of keys.
pub fn entry_at<'t>(root: &'t Tree, path: &[&str]) -> Option<&'t Tree>
    ensures { option_map (λ t. view t.now) result
        ≡ entry_at (map (λ k. k.now) path.now) (view root.now) }
{
    let mut entry = root;
    for key in path {
        entry = value_at(entry, key)?;
    }
    Some(entry)
}

fn value_at<'t>(tree: &'t Tree, key: &str) -> Option<&'t Tree>
    ensures { option_map (λ t. view t.now) result ≡ value_at key.now (view tree.now) }
{
    if tree.is_map() { tree.get(key) } else { None }
}

/// The entry at the end of a path, which has to be there.
pub fn needed<'t>(
    alloc: Global,
    root: &'t Tree,
    path: &[&str],
) -> Result<&'t Tree, Fault<IsaRefusal>>
    ensures { AnswersWith (λ t. view t.now) result
        (needed (map (λ k. k.now) path.now) (view root.now)) }
{
    match entry_at(root, path) {
        Some(entry) => Ok(entry),
        None => Err(refusal(alloc, path, IsaKind::MissingEntry)),
    }
}

/// That the tree at the end of a path is a map.
pub fn check_map(alloc: Global, tree: &Tree, path: &[&str]) -> Result<(), Fault<IsaRefusal>>
    ensures { Answers result (is_a_map (map (λ k. k.now) path.now) (view tree.now)) }
{
    if tree.is_map() {
        Ok(())
    } else {
        Err(refusal(alloc, path, IsaKind::NotAMapping))
    }
}

/// The refusal of this kind at the end of a path, or want of memory.
pub fn refusal(alloc: Global, path: &[&str], kind: IsaKind) -> Fault<IsaRefusal>
    ensures { IfRefused result (λ r. r ≡ refusal_at (map (λ k. k.now) path.now) kind) }
{
    match path_text(alloc, path) {
        Ok(path) => Fault::Refused(IsaRefusal { path, kind }),
        Err(NoMemory) => Fault::NoMemory,
    }
}

/// The keys of a path, with a dot between.
///
/// # Errors
///
/// [`NoMemory`].
#[tactic(auto, using(crate::proofs::Paths::joined))]
pub fn path_text(alloc: Global, path: &[&str]) -> Result<Text, NoMemory>
    ensures { IfOk result (λ t. t ≡ path_text (map (λ k. k.now) path.now)) }
{
    Ok(Text::from(path.join(alloc, ".")?))
}
