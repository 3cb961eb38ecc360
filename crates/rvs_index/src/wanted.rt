// Which facts the points of a mnemonic say values of, so that others aren't looked up.
ghost use Rattle.std.specs.Prelude.{◌≡◌, ◌<◌, ◌≤◌, ◌+◌, ◌*◌, [], OnOk, false, length};
ghost use Rattle.rvs_insn.specs.Table.{op_count};
ghost use Rattle.rvs_index.specs.Buckets.{bucket_count};
ghost use Rattle.rvs_index.specs.Wanted as spec;
ghost use Rattle.rvs_index.specs.Wanted.{AreEmpty, HasWanted, IsWanted};

use crate::asked::Asked;
use crate::buckets::BUCKETS;
use crate::slot::Slot;
use rvs_base::{Items, NoMemory};
use rvs_insn::OP_COUNT;

/// Whether points of a mnemonic say values of a fact.
#[derive(Clone, Copy)]
pub struct Wanted {
    pub rd: bool,
    pub rs1: bool,
    pub rs2: bool,
    pub rs1_val: bool,
    pub rs2_val: bool,
    pub imm_val: bool,
    pub ea_align: bool,
}

impl Wanted {
    /// Whether they say values of this one.
    #[inline(always)]
    pub(crate) fn has(&self, asked: Asked) -> bool
        ensures { result ≡ spec.wants self.now asked }
    {
        match asked {
            Asked::Rd => self.rd,
            Asked::Rs1 => self.rs1,
            Asked::Rs2 => self.rs2,
            Asked::Rs1Val => self.rs1_val,
            Asked::Rs2Val => self.rs2_val,
            Asked::ImmVal => self.imm_val,
            Asked::EaAlign => self.ea_align,
        }
    }
}

/// Whether one of the lists from one number up to another has a point.
fn any_point(lists: &[Items<Slot<'_>>], from: usize, to: usize) -> bool
    requires { to ≤ length lists.now }
    ensures { result ≡ false → AreEmpty lists.now from to }
{
    for number in from..to {
        if !lists[number].as_slice().is_empty() {
            return true;
        }
    }
    false
}

/// What the points of the mnemonic of this number say.
fn wanted_of(lists: &[Items<Slot<'_>>], mnemonic: usize) -> Wanted
    requires all { length lists.now ≡ op_count * bucket_count }
    requires low { mnemonic < op_count }
    ensures { IsWanted lists.now mnemonic result }
{
    let first = mnemonic * BUCKETS;
    Wanted {
        rd: any_point(lists, first + 1, first + 33),
        rs1: any_point(lists, first + 33, first + 65),
        rs2: any_point(lists, first + 65, first + 97),
        rs1_val: any_point(lists, first + 97, first + 164),
        rs2_val: any_point(lists, first + 164, first + 231),
        imm_val: any_point(lists, first + 231, first + 298),
        ea_align: any_point(lists, first + 298, first + BUCKETS),
    }
}

/// The same for each mnemonic.
#[tactic(auto, using(crate::proofs::Wants::more_wanted))]
pub(crate) fn fill_wanted(
    wanted: &mut Items<Wanted>,
    lists: &[Items<Slot<'_>>],
) -> Result<(), NoMemory>
    requires all { length lists.now ≡ op_count * bucket_count }
    requires none { wanted.old ≡ [] }
    ensures each { OnOk result (HasWanted lists.now wanted.new) }
    ensures all { OnOk result (length wanted.new ≡ op_count) }
{
    for mnemonic in 0..OP_COUNT {
        wanted.push(wanted_of(lists, mnemonic))?;
    }
    Ok(())
}
