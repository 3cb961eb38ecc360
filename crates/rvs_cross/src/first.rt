// The first place of a cross point.
ghost use Rattle.std.specs.Prelude.{◌≡◌};
ghost use Rattle.std.specs.Option.{option_copied};
ghost use Rattle.rvs_cross.specs.CrossView.{cross_view};
ghost use Rattle.rvs_cross.specs.First as spec;

use crate::cross::{Cross, Place};
use rvs_insn::Op;

fn listed(place: &Place) -> Option<&[Op]>
    ensures { option_copied result ≡ place.now.ops }
{
    let ops = place.ops.as_ref()?;
    Some(ops.as_slice())
}

/// The mnemonics that the first place lists; none where any will do. It takes no memory.
pub fn first_ops(cross: &Cross) -> Option<&[Op]>
    ensures { option_copied result ≡ spec.first_ops (cross_view cross.now) }
{
    match cross.list.as_slice() {
        [first, ..] => listed(first),
        [] => None,
    }
}
