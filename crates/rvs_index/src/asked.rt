// The facts whose values points say.
ghost use Rattle.std.specs.Prelude.{◌≡◌, ◌<◌, IfSome, true};
ghost use Rattle.rvs_expr.specs.Meaning.{Table};
ghost use Rattle.rvs_index.specs.Buckets.{bucket_count};
ghost use Rattle.rvs_index.specs.Cells as spec;

use crate::buckets::number_bucket;
use crate::shortcut::Shortcut;
use crate::slot::Slot;
use rvs_expr::{NumName, RegName};

/// A fact that a point may say the value of: a register of the instruction, or a number.
#[derive(Clone, Copy)]
pub(crate) enum Asked {
    Rd,
    Rs1,
    Rs2,
    Rs1Val,
    Rs2Val,
    ImmVal,
    EaAlign,
}

/// The fact that all points of a list with this number say, but for those of the first list.
pub(crate) fn asked_at(bucket: usize) -> Option<Asked>
    ensures { result ≡ spec.asked_at bucket }
{
    if bucket < 1 {
        None
    } else if bucket < 33 {
        Some(Asked::Rd)
    } else if bucket < 65 {
        Some(Asked::Rs1)
    } else if bucket < 97 {
        Some(Asked::Rs2)
    } else if bucket < 164 {
        Some(Asked::Rs1Val)
    } else if bucket < 231 {
        Some(Asked::Rs2Val)
    } else if bucket < 298 {
        Some(Asked::ImmVal)
    } else {
        Some(Asked::EaAlign)
    }
}

fn register_place(value: i64) -> usize
    ensures value { result ≡ spec.register_place value }
    ensures low { result < 32 }
{
    value.unsigned_abs() as usize % 32
}

/// The list of the points that say this value of a fact.
#[inline(always)]
pub(crate) fn asked_bucket(asked: Asked, value: i64) -> usize
    ensures value { result ≡ spec.asked_bucket asked value }
    ensures low { result < bucket_count }
{
    match asked {
        Asked::Rd => 1 + register_place(value),
        Asked::Rs1 => 33 + register_place(value),
        Asked::Rs2 => 65 + register_place(value),
        Asked::Rs1Val => number_bucket(NumName::Rs1Val, value),
        Asked::Rs2Val => number_bucket(NumName::Rs2Val, value),
        Asked::ImmVal => number_bucket(NumName::ImmVal, value),
        Asked::EaAlign => number_bucket(NumName::EaAlign, value),
    }
}

/// Whether a fact is the number of this name.
pub(crate) fn is_named(asked: Asked, name: NumName) -> bool
    ensures { result ≡ true → (t : Table) → spec.fact asked t ≡ t.num name }
{
    matches!(
        (asked, name),
        (Asked::Rs1Val, NumName::Rs1Val)
            | (Asked::Rs2Val, NumName::Rs2Val)
            | (Asked::ImmVal, NumName::ImmVal)
            | (Asked::EaAlign, NumName::EaAlign)
    )
}

/// The value that a point says of a fact.
#[tactic(auto, using(crate::proofs::Cells::register_says, crate::proofs::Cells::named_says))]
pub(crate) fn said(asked: Asked, slot: &Slot<'_>) -> Option<i64>
    ensures { IfSome result (spec.SaysValue asked slot.now) }
{
    match slot.shortcut {
        Some(Shortcut::Register(name, number)) => match (asked, name) {
            (Asked::Rd, RegName::Rd) => Some(i64::from(number)),
            (Asked::Rs1, RegName::Rs1) => Some(i64::from(number)),
            (Asked::Rs2, RegName::Rs2) => Some(i64::from(number)),
            _ => None,
        },
        Some(Shortcut::Number(name, value)) => {
            if is_named(asked, name) {
                Some(value)
            } else {
                None
            }
        },
        _ => None,
    }
}
