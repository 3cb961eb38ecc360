// The points of a mnemonic, bucket by bucket.
ghost use Rattle.std.specs.Prelude.{◌≡◌, ◌<◌, ◌+◌, ◌*◌, ◌^◌, ◌++◌, ◌∷◌, [], IfOk, OnOk, length};
ghost use Rattle.std.specs.Prelude.{◌*◌};
ghost use Rattle.rvs_index.specs.Buckets.{bucket_count};
ghost use Rattle.rvs_index.specs.Counting.{aims_in};
ghost use Rattle.rvs_index.specs.Index.{IsIndex, in_bucket, insns_key, place_of, places};

use crate::buckets::BUCKETS;
use crate::key::ListKey;
use crate::slot::Slot;
use crate::slots::{fitted, slots_of};
use rvs_base::{Items, NoMemory};
use rvs_points::Label;
use std::alloc::Global;

/// Adds a slot, where its point is of this bucket.
fn add_slot<'g>(list: &mut Items<Slot<'g>>, slot: &Slot<'g>, bucket: usize) -> Result<(), NoMemory>
    ensures { OnOk result (places list.new
        ≡ places list.old ++ in_bucket bucket (place_of slot.now ∷ [])) }
{
    if slot.bucket == bucket {
        list.push(*slot)
    } else {
        Ok(())
    }
}

/// The slots whose points are of this bucket.
#[tactic(auto, using(crate::proofs::Sorting::slot_more))]
fn of_bucket<'g>(
    alloc: Global,
    slots: &[Slot<'g>],
    bucket: usize,
) -> Result<Items<Slot<'g>>, NoMemory>
    ensures { IfOk result (λ list. places list ≡ in_bucket bucket (places slots.now)) }
{
    let mut list = Items::new(alloc);
    for slot in slots {
        add_slot(&mut list, slot, bucket)?;
    }
    fitted(alloc, list.as_slice())
}

/// Adds the lists of a mnemonic.
#[tactic(auto, using(crate::proofs::Sorting::more_index))]
pub(crate) fn add_lists<'g>(
    alloc: Global,
    lists: &mut Items<Items<Slot<'g>>>,
    labels: &'g [Label],
    mnemonic: usize,
) -> Result<(), NoMemory>
    requires room { length (aims_in labels.now) < 2 ^ 63 }
    requires index { IsIndex insns_key labels.now lists.old }
    requires count { length lists.old ≡ mnemonic * bucket_count }
    ensures index { OnOk result (IsIndex insns_key labels.now lists.new) }
    ensures all { OnOk result (length lists.new ≡ mnemonic * bucket_count + bucket_count) }
{
    let slots = slots_of(alloc, labels, ListKey::Any { mnemonic })?;
    for bucket in 0..BUCKETS {
        lists.push(of_bucket(alloc, slots.as_slice(), bucket)?)?;
    }
    Ok(())
}
