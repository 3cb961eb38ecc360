// Mnemonics whose cells are alike, so that a look-up may take those of the first of them: the
// points of one label are asked of many mnemonics, and then few cells stay close at hand.
ghost use Rattle.std.specs.Prelude.{◌≡◌, ◌<◌, ◌*◌, [], OnOk, length, true};
ghost use Rattle.rvs_insn.specs.Table.{op_count};
ghost use Rattle.rvs_index.specs.Buckets.{bucket_count};
ghost use Rattle.rvs_index.specs.Shared as spec;
ghost use Rattle.rvs_index.specs.Shared.{AreAlike, HasBlocks};

use crate::buckets::BUCKETS;
use crate::cell::Cell;
use rvs_base::{Items, NoMemory};
use rvs_insn::OP_COUNT;

/// Whether two cells say the same.
fn is_same(left: &Cell, right: &Cell) -> bool
    ensures { result ≡ spec.is_same left.now right.now }
{
    left.first == right.first
        && left.first_at == right.first_at
        && left.second == right.second
        && left.second_at == right.second_at
        && left.more == right.more
}

/// Whether the cells of two mnemonics are alike.
#[tactic(auto, using(crate::proofs::Blocks::alike_none, crate::proofs::Blocks::alike_more))]
fn is_alike(cells: &[Cell], left: usize, right: usize) -> bool
    requires all { length cells.now ≡ op_count * bucket_count }
    requires left { left < op_count }
    requires right { right < op_count }
    ensures { result ≡ true → AreAlike bucket_count cells.now left right }
{
    for bucket in 0..BUCKETS {
        if !is_same(
            &cells[left * BUCKETS + bucket],
            &cells[right * BUCKETS + bucket],
        ) {
            return false;
        }
    }
    true
}

/// For each mnemonic, one whose cells are its own.
#[tactic(auto, using(crate::proofs::Blocks::more_blocks))]
pub(crate) fn fill_blocks(blocks: &mut Items<usize>, cells: &[Cell]) -> Result<(), NoMemory>
    requires all { length cells.now ≡ op_count * bucket_count }
    requires none { blocks.old ≡ [] }
    ensures each { OnOk result (HasBlocks cells.now blocks.new) }
    ensures all { OnOk result (length blocks.new ≡ op_count) }
{
    let mut first: usize = 0;
    for next in 0..OP_COUNT {
        if !is_alike(cells, first, next) {
            first = next;
        }
        blocks.push(first)?;
    }
    Ok(())
}
