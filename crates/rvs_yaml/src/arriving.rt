// Noting where keys come that are taken below a map that merges.
ghost use Rattle.std.specs.Prelude.{◌<◌, length};
ghost use Rattle.rvs_yaml.specs.FillView.{flow_view};
ghost use Rattle.rvs_yaml.specs.Filling as spec;
ghost use Rattle.rvs_yaml.specs.Reader.{Passes};
ghost use Rattle.rvs_yaml.specs.StackView.{open_blocks};

use crate::anchor_list::AnchorList;
use crate::arrivals::Arrivals;
use crate::chain::root_of;
use crate::fill::fill;
use crate::open::{Done, Open};
use crate::open_blocks::OpenBlocks;
use crate::taking::push;
use rvs_base::{Fault, release};
use rvs_tree::{Tree, tree_of};
use rvs_yaml_text::{Bracket, YamlKind};
use std::alloc::{AllocError, Global};
use std::collections::BTreeMap;

/// Whether these keys came below a map that is still open, and is as it was.
fn is_open(arrivals: &Arrivals, blocks: &[Open<'_>]) -> bool {
    let Some(open) = blocks.get(arrivals.place) else {
        return false;
    };
    match &open.block.done {
        Done::Entries(pending) => pending.key.merges
            && arrivals.line == open.block.line
            && arrivals.entries == pending.list.entries.len(),
        _ => false,
    }
}

/// Lets those go that came below maps that aren't open any more.
fn keep_open(all: &mut Vec<Arrivals>, blocks: &[Open<'_>]) {
    for _ in 0..all.len() {
        let open = match all.last() {
            Some(arrivals) => is_open(arrivals, blocks),
            None => true,
        };
        if open {
            return;
        }
        all.pop();
    }
}

/// Begins those below the map at this place, if they aren't the last of all.
fn begin_below(
    alloc: Global,
    all: &mut Vec<Arrivals>,
    blocks: &[Open<'_>],
    place: usize,
) -> Result<(), AllocError>
    requires { place < length blocks.now }
{
    let begun = match all.last() {
        Some(arrivals) => arrivals.place == place,
        None => false,
    };
    if begun {
        return Ok(());
    }
    let block = &blocks[place].block;
    let entries = match &block.done {
        Done::Entries(pending) => pending.list.entries.len(),
        _ => 0,
    };
    let none_yet = Arrivals {
        place,
        line: block.line,
        entries,
        lines: BTreeMap::new(alloc),
    };
    push(all, none_yet)
}

/// Adds this key to others, as one that came on this line if it wasn't there before.
fn add_key(
    alloc: Global,
    lines: &mut BTreeMap<String, u64>,
    key: &str,
    line: u64,
) -> Result<(), AllocError> {
    if lines.get(key).is_none() {
        lines.insert(String::from_str(alloc, key)?, line)?;
    }
    Ok(())
}

/// Adds the keys of a map. Other trees have none.
fn add_map(
    alloc: Global,
    lines: &mut BTreeMap<String, u64>,
    tree: &Tree,
    line: u64,
) -> Result<(), AllocError> {
    if tree.is_map() {
        for i in 0..tree.len() {
            add_key(alloc, lines, tree.key(i), line)?;
        }
    }
    Ok(())
}

/// Adds the keys of a map, or of the maps in a list.
fn add_tree(
    alloc: Global,
    lines: &mut BTreeMap<String, u64>,
    tree: &Tree,
    line: u64,
) -> Result<(), AllocError> {
    if tree.is_list() {
        for i in 0..tree.len() {
            add_map(alloc, lines, tree.item(i), line)?;
        }
        return Ok(());
    }
    add_map(alloc, lines, tree, line)
}

/// Adds the key that the last word brings, or, where it merges, the keys that it brings by itself.
fn add_word(
    alloc: Global,
    lines: &mut BTreeMap<String, u64>,
    top: &Open<'_>,
) -> Result<(), AllocError> {
    match &top.block.done {
        Done::Entries(pending) if !pending.key.merges => {
            add_key(alloc, lines, pending.key.name.as_str(), top.head.line)
        }
        _ => match &top.own {
            Some(value) => {
                let tree = tree_of(alloc, value)?;
                let added = add_tree(alloc, lines, &tree, top.head.line);
                release(tree);
                added
            }
            None => Ok(()),
        },
    }
}

/// Adds those of the last word to the keys that came.
fn arrive(alloc: Global, all: &mut Vec<Arrivals>, blocks: &[Open<'_>]) -> Result<(), AllocError> {
    keep_open(all, blocks);
    let Some(top) = blocks.last() else {
        return Ok(());
    };
    let end = blocks.len() - 1;
    let root = root_of(blocks, end);
    if root >= end {
        return Ok(());
    }
    begin_below(alloc, all, blocks, root)?;
    match all.last_mut() {
        Some(arrivals) => add_word(alloc, &mut arrivals.lines, top),
        None => Ok(()),
    }
}

/// Fills in the value of a flow collection, where there is one, and notes the keys of the word.
pub(crate) fn filled<'a>(
    alloc: Global,
    stack: OpenBlocks<'a>,
    flow: Option<(Bracket, &'a str)>,
) -> Result<OpenBlocks<'a>, Fault<YamlKind>>
    ensures { Passes open_blocks result
        (spec.filled (flow_view flow.entry) (open_blocks stack.entry)) }
{
    let stack = match flow {
        Some((bracket, text)) => fill(alloc, stack, bracket, text)?,
        None => stack,
    };
    let OpenBlocks { blocks, anchors } = stack;
    let AnchorList {
        anchors,
        latest,
        mut arrivals,
    } = anchors;
    match arrive(alloc, &mut arrivals, blocks.as_slice()) {
        Ok(()) => {
            let anchors = AnchorList {
                anchors,
                latest,
                arrivals,
            };
            Ok(OpenBlocks { blocks, anchors })
        }
        Err(_) => {
            release((blocks, anchors, latest, arrivals));
            Err(Fault::NoMemory)
        }
    }
}
