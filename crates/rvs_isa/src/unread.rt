// The entries that no check reads.
ghost use Rattle.std.specs.Prelude.{◌≡◌, ◌++◌, ◌∷◌, [], if◌then◌else◌, IfOk, OnOk, map};
ghost use Rattle.std.specs.List.{list_any};
ghost use Rattle.std.specs.Str.{bytes_eq};
ghost use Rattle.rvs_tree.specs.TreeView.{view};
ghost use Rattle.rvs_isa.specs.Refusal.{path_text};
ghost use Rattle.rvs_isa.specs.Unread.{unread, each_entry, unread_of_root};
ghost use Rattle.rvs_isa.specs.Unread.{unread_of_hart};

use crate::entry::path_text;
use rvs_base::{Items, NoMemory, Text};
use rvs_tree::Tree;
use std::alloc::Global;

/// The paths of the entries of a specification that no check reads, in the tree's order.
///
/// # Errors
///
/// [`NoMemory`].
pub fn unread(alloc: Global, hart: &str, root: &Tree) -> Result<Items<Text>, NoMemory>
    ensures { IfOk result (λ paths. paths ≡ unread hart.now (view root.now)) }
{
    let mut paths = Items::new(alloc);
    if root.is_map() {
        for i in 0..root.len() {
            add_of_root(alloc, &mut paths, hart, root.key(i), root.item(i))?;
        }
    }
    Ok(paths)
}

fn add_path(alloc: Global, paths: &mut Items<Text>, path: &[&str]) -> Result<(), NoMemory>
    ensures { OnOk result
        (paths.new ≡ paths.old ++ path_text (map (λ k. k.now) path.now) ∷ []) }
{
    paths.push(path_text(alloc, path)?)
}

fn add_of_root(
    alloc: Global,
    paths: &mut Items<Text>,
    hart: &str,
    key: &str,
    value: &Tree,
) -> Result<(), NoMemory>
    ensures { OnOk result
        (paths.new ≡ paths.old ++ unread_of_root hart.now key.now (view value.now)) }
{
    if key == hart {
        add_hart(alloc, paths, hart, value)
    } else if key == "hart_ids" {
        Ok(())
    } else {
        add_path(alloc, paths, &[key])
    }
}

fn add_hart(
    alloc: Global,
    paths: &mut Items<Text>,
    hart: &str,
    entries: &Tree,
) -> Result<(), NoMemory>
    ensures { OnOk result
        (paths.new ≡ paths.old ++ each_entry (unread_of_hart hart.now) (view entries.now)) }
{
    if entries.is_map() {
        for i in 0..entries.len() {
            add_of_hart(alloc, paths, hart, entries.key(i), entries.item(i))?;
        }
    }
    Ok(())
}

fn add_of_hart(
    alloc: Global,
    paths: &mut Items<Text>,
    hart: &str,
    key: &str,
    value: &Tree,
) -> Result<(), NoMemory>
    ensures { OnOk result
        (paths.new ≡ paths.old ++ unread_of_hart hart.now key.now (view value.now)) }
{
    match key {
        "misa" => add_inner(alloc, paths, hart, "misa", &["reset-val"], value),
        "memory_map" => add_inner(alloc, paths, hart, "memory_map", &["text", "data"], value),
        "ISA" | "supported_xlen" | "physical_addr_sz" | "hw_data_misaligned_support" => Ok(()),
        _ => add_path(alloc, paths, &[hart, key]),
    }
}

/// Adds the entries of a map under a key of the hart, but for those under the keys that are read.
fn add_inner(
    alloc: Global,
    paths: &mut Items<Text>,
    hart: &str,
    name: &str,
    read: &[&str],
    entries: &Tree,
) -> Result<(), NoMemory>
    ensures { OnOk result (paths.new ≡ paths.old ++ each_entry
        (λ key _. if list_any (λ k. bytes_eq key k.now) read.now then []
        else path_text (hart.now ∷ name.now ∷ key ∷ []) ∷ []) (view entries.now)) }
{
    if entries.is_map() {
        for i in 0..entries.len() {
            add_of_inner(alloc, paths, hart, name, read, entries.key(i))?;
        }
    }
    Ok(())
}

fn add_of_inner(
    alloc: Global,
    paths: &mut Items<Text>,
    hart: &str,
    name: &str,
    read: &[&str],
    key: &str,
) -> Result<(), NoMemory>
    ensures { OnOk result (paths.new ≡ paths.old
        ++ (if list_any (λ k. bytes_eq key.now k.now) read.now then []
        else path_text (hart.now ∷ name.now ∷ key.now ∷ []) ∷ [])) }
{
    if read.contains(&key) {
        Ok(())
    } else {
        add_path(alloc, paths, &[hart, name, key])
    }
}
