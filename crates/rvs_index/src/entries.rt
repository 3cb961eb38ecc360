// The points that say registers, by their places among the counts alone: a table that stays close
// at hand, in front of the cells.
ghost use Rattle.std.specs.Prelude.{◌≡◌, ◌<◌, ◌≤◌, ◌+◌, ◌*◌, ◌^◌, ℕ, [], All, OnOk, length, pos};
ghost use Rattle.std.specs.Prelude.{true, vec_len};
ghost use Rattle.rvs_insn.specs.Table.{op_count};
ghost use Rattle.rvs_index.specs.Buckets.{bucket_count};
ghost use Rattle.rvs_index.specs.Cells.{asked_bucket};
ghost use Rattle.rvs_index.specs.Entries as spec;
ghost use Rattle.rvs_index.specs.Entries.{HasEntries, IsEntry, IsEntryAt, register_count};

use crate::asked::Asked;
use crate::buckets::BUCKETS;
use crate::cell::Cell;
use rvs_base::{Items, NoMemory};
use rvs_insn::OP_COUNT;

/// The entry that says to look at the cell.
pub(crate) const LOOK: u32 = u32::MAX;

/// How many entries a mnemonic has: one for each of 32 registers in each of three fields.
pub(crate) const REGISTERS: usize = 96;

/// The number of a field: `rd`, `rs1` and `rs2` have 0, 1 and 2.
#[tactic(auto, using(crate::proofs::Registers::field_list))]
#[inline(always)]
pub(crate) fn field_of(asked: Asked) -> usize
    ensures low { result < 3 }
    ensures list { spec.is_field asked ≡ true → (r : ℕ) → r < 32 →
        asked_bucket asked (pos r) ≡ 1 + (32 * result + r) }
{
    match asked {
        Asked::Rs1 => 1,
        Asked::Rs2 => 2,
        _ => 0,
    }
}

/// What the cell of a register's list says: nothing; or one more than the place of its only point;
/// or that it is to be looked at.
#[tactic(auto, using(crate::proofs::Registers::looks, crate::proofs::Registers::one_said, crate::proofs::Registers::none_said))]
fn entry_of(cell: &Cell, register: i64) -> u32
    ensures { IsEntry cell.now register result }
{
    if cell.more || cell.second == register {
        LOOK
    } else if cell.first != register {
        0
    } else if cell.first_at < LOOK - 1 {
        cell.first_at + 1
    } else {
        LOOK
    }
}

/// The entry of this number.
fn entry_for(cells: &[Cell], number: usize) -> u32
    requires all { length cells.now ≡ op_count * bucket_count }
    requires low { number < op_count * register_count }
    ensures { IsEntryAt cells.now number result }
{
    let cell = &cells[number / REGISTERS * BUCKETS + (1 + number % REGISTERS)];
    entry_of(cell, (number % 32) as i64)
}

/// The entries of all mnemonics and registers.
#[tactic(auto, using(crate::proofs::Registers::more_entries))]
pub(crate) fn fill_entries(entries: &mut Items<u32>, cells: &[Cell]) -> Result<(), NoMemory>
    requires all { length cells.now ≡ op_count * bucket_count }
    requires none { entries.old ≡ [] }
    ensures each { OnOk result (HasEntries cells.now entries.new) }
    ensures all { OnOk result (length entries.new ≡ op_count * register_count) }
{
    for number in 0..OP_COUNT * REGISTERS {
        entries.push(entry_for(cells, number))?;
    }
    Ok(())
}

/// Adds one to the count of the point that an entry names.
#[inline(always)]
pub(crate) fn add_entry(entry: u32, counts: &mut [u64])
    requires within { entry ≤ length counts.old }
    requires low { All (λ n. n ≤ 2 ^ 41) counts.old }
    ensures { counts.new ≡ spec.raised_entry entry counts.old }
{
    if entry > 0 {
        counts[entry as usize - 1] += 1;
    }
}
