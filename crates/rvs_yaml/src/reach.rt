// How deep what the last word has brought can be.
ghost use Rattle.std.specs.Prelude.{◌≡◌, ◌≤◌, ◌+◌, false, min, Ok, IfOk};
ghost use Rattle.rvs_tree.specs.Data as data_spec;
ghost use Rattle.rvs_yaml.specs.Front as front_spec;
ghost use Rattle.rvs_yaml.specs.Reach as spec;
ghost use Rattle.rvs_yaml.specs.StackView.{done_view, open_view, stack_view};
ghost use Rattle.rvs_yaml.specs.StackView.{kept_own, kept_on_top};

use crate::arrivals::Arrivals;
use crate::front::MOST_DEPTH;
use crate::open::{Done, Open};
use crate::sight::sight;
use rvs_tree::DEEP;
use std::alloc::{AllocError, Global};

/// How much deeper the open member of a block makes the block. What is merged makes it no deeper.
fn level(done: &Done) -> u64
    ensures { result ≡ spec.level (done_view done.now) }
{
    match done {
        Done::Items(_) => 1,
        Done::Entries(pending) => { if pending.key.merges { 0 } else { 1 } }
        Done::Alone => 0,
    }
}

/// How much deeper these blocks make what is in the innermost, counted up to 33.
fn levels(blocks: &[Open<'_>]) -> u64
    ensures { result ≡ min (spec.levels (stack_view blocks.now)) 33 }
{
    let mut levels: u64 = 0;
    for outer in blocks {
        levels = (levels + level(&outer.block.done)).min(DEEP);
    }
    levels
}

/// A bound on the depth of what a last word is by itself, from 33 on counted as 33.
fn own_depth(top: &Open<'_>) -> u64
    ensures bound { min (data_spec.depth (front_spec.own_value (open_view top.now)).tree) 33
        ≤ result }
    ensures kept { result ≡ kept_own top.now }
    ensures shallow { result ≤ 33 }
{
    if top.head.sort.opens_block() {
        return 1;
    }
    match &top.own {
        Some(own) => own.depth,
        None => 1,
    }
}

/// Whether what the last word has brought may be too deep. Its value is looked through only where
/// the bound that is kept with it is too great.
pub(crate) fn may_be_deep(
    alloc: Global,
    blocks: &[Open<'_>],
    arrivals: &[Arrivals],
) -> Result<bool, AllocError>
    ensures far { IfOk result (λ b. b ≡ false → spec.sight (stack_view blocks.now) ≤ 32) }
    ensures near { spec.levels (stack_view blocks.now) + kept_on_top blocks.now ≤ 32
        → result ≡ Ok false }
{
    let Some(top) = blocks.last() else {
        return Ok(false);
    };
    if levels(blocks) + own_depth(top) <= MOST_DEPTH {
        return Ok(false);
    }
    Ok(sight(alloc, blocks, arrivals)? > MOST_DEPTH)
}
