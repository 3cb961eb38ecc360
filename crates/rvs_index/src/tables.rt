// The tables of an index, made from labels.
ghost use Rattle.std.specs.Prelude.{◌≡◌, ◌<◌, ◌^◌, ◌*◌, [], OnOk, length};
ghost use Rattle.rvs_insn.specs.Table.{op_count};
ghost use Rattle.rvs_index.specs.Buckets.{bucket_count};
ghost use Rattle.rvs_index.specs.Cells.{HasCells};
ghost use Rattle.rvs_index.specs.Counting.{aims_in};
ghost use Rattle.rvs_index.specs.Entries.{HasEntries, register_count};
ghost use Rattle.rvs_index.specs.Index.{IsIndex, insns_key};
ghost use Rattle.rvs_index.specs.Marks.{HasFirstHeads, HasPlaceHeads};
ghost use Rattle.rvs_index.specs.Shared.{HasBlocks};
ghost use Rattle.rvs_index.specs.Wanted.{HasWanted};

use crate::alike::fill_blocks;
use crate::cell::{Cell, fill_cells};
use crate::entries::fill_entries;
use crate::mark::{Head, fill_heads, fill_places};
use crate::slot::Slot;
use crate::sorted::add_lists;
use crate::wanted::{Wanted, fill_wanted};
use rvs_base::{Items, NoMemory};
use rvs_insn::OP_COUNT;
use rvs_points::Label;
use std::alloc::Global;

/// The lists of all mnemonics and buckets.
fn fill_lists<'g>(
    alloc: Global,
    lists: &mut Items<Items<Slot<'g>>>,
    labels: &'g [Label],
) -> Result<(), NoMemory>
    requires room { length (aims_in labels.now) < 2 ^ 63 }
    requires none { lists.old ≡ [] }
    ensures index { OnOk result (IsIndex insns_key labels.now lists.new) }
    ensures all { OnOk result (length lists.new ≡ op_count * bucket_count) }
{
    for mnemonic in 0..OP_COUNT {
        add_lists(alloc, lists, labels, mnemonic)?;
    }
    Ok(())
}

/// The tables of an index, which are filled one after another.
#[derive(Drop)]
pub(crate) struct Tables<'g> {
    pub(crate) lists: Items<Items<Slot<'g>>>,
    pub(crate) cells: Items<Cell>,
    pub(crate) heads: Items<Head>,
    pub(crate) blocks: Items<usize>,
    pub(crate) wanted: Items<Wanted>,
    pub(crate) entries: Items<u32>,
    pub(crate) places: Items<Head>,
}

/// Fills the tables of these labels.
pub(crate) fn fill<'g>(
    alloc: Global,
    labels: &'g [Label],
    tables: &mut Tables<'g>,
) -> Result<(), NoMemory>
    requires room { length (aims_in labels.now) < 2 ^ 63 }
    requires lists { tables.old.lists ≡ [] }
    requires cells { tables.old.cells ≡ [] }
    requires heads { tables.old.heads ≡ [] }
    requires blocks { tables.old.blocks ≡ [] }
    requires wanted { tables.old.wanted ≡ [] }
    requires entries { tables.old.entries ≡ [] }
    requires places { tables.old.places ≡ [] }
    ensures lists { OnOk result (IsIndex insns_key labels.now tables.new.lists
        × (length tables.new.lists ≡ op_count * bucket_count)) }
    ensures cells { OnOk result (HasCells tables.new.lists tables.new.cells
        × (length tables.new.cells ≡ op_count * bucket_count)) }
    ensures heads { OnOk result (HasFirstHeads tables.new.lists tables.new.heads
        × (length tables.new.heads ≡ op_count)) }
    ensures blocks { OnOk result (HasBlocks tables.new.cells tables.new.blocks
        × (length tables.new.blocks ≡ op_count)) }
    ensures wanted { OnOk result (HasWanted tables.new.lists tables.new.wanted
        × (length tables.new.wanted ≡ op_count)) }
    ensures entries { OnOk result (HasEntries tables.new.cells tables.new.entries
        × (length tables.new.entries ≡ op_count * register_count)) }
    ensures places { OnOk result (HasPlaceHeads tables.new.lists tables.new.places) }
    ensures all { OnOk result (length tables.new.places ≡ 4 * op_count) }
{
    fill_lists(alloc, &mut tables.lists, labels)?;
    fill_cells(&mut tables.cells, tables.lists.as_slice())?;
    fill_heads(alloc, &mut tables.heads, tables.lists.as_slice())?;
    fill_blocks(&mut tables.blocks, tables.cells.as_slice())?;
    fill_wanted(&mut tables.wanted, tables.lists.as_slice())?;
    fill_entries(&mut tables.entries, tables.cells.as_slice())?;
    fill_places(alloc, &mut tables.places, tables.lists.as_slice())
}
