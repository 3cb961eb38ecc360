// The instructions that solve a cross point.
ghost use Rattle.std.specs.Prelude.{◌≡◌, ◌+◌, ◌*◌, ◌≤◌, All, IfOk, IfSome, IfNone, length, map};
ghost use Rattle.std.specs.Prelude.{flat_map, true, Some};
ghost use Rattle.rvs_insn.specs.Fields.{IsRegister};
ghost use Rattle.rvs_cross.specs.CrossView.{place_view, cross_view};
ghost use Rattle.rvs_sequences.specs.Sequences.{IsComputing, Solvable, bound, count_of};
ghost use Rattle.rvs_sequences.specs.Sequences.{first_sequence};
ghost use Rattle.rvs_sequences.specs.Sequences.{first_solutions, solutions};
ghost use Rattle.rvs_cross.specs.Windows.{matches, with_third, with_second};

use crate::choosing::{choices_for, solution};
use rvs_base::{Items, NoMemory};
use rvs_cross::{Cross, Place, Values, Variable, in_order, is_used};
use rvs_expr::Steps;
use rvs_insn::{Insn, IsaSpec};
use std::alloc::Global;
use std::sync::ledger::Ledger;

/// The first instructions that match a cross point, one for each place, and none exactly where no
/// instructions that compute in x8 to x15 do.
///
/// # Errors
///
/// [`NoMemory`] alone.
pub fn solve_cross<L: Ledger>(
    alloc: Global,
    cross: &Cross,
    spec: &IsaSpec,
    steps: &mut Steps<L>,
) -> Result<Option<Items<Insn>>, NoMemory>
    ensures first { IfOk result (λ found.
        found ≡ first_sequence spec.now (cross_view cross.now)) }
    ensures length { IfOk result (λ found. IfSome found (λ is.
        length is ≡ length cross.now.list)) }
    ensures computing { IfOk result (λ found. IfSome found (All (IsComputing spec.now))) }
    ensures matching { IfOk result (λ found. IfSome found (λ is.
        matches (cross_view cross.now) (map (λ i. Some i) is) ≡ true)) }
    ensures none { IfOk result (λ found. IfNone found
        (Solvable spec.now (cross_view cross.now) → ⊥)) }
    ensures cost { steps.new ≤ steps.old + bound spec.now (cross_view cross.now) }
{
    first_of_all(alloc, in_order(cross), spec, steps)
}

/// The first over all values of the variables.
fn first_of_all<L: Ledger>(
    alloc: Global,
    places: &[Place],
    spec: &IsaSpec,
    steps: &mut Steps<L>,
) -> Result<Option<Items<Insn>>, NoMemory>
    ensures first { IfOk result (λ found.
        found ≡ first_sequence spec.now (map place_view places.now)) }
    ensures cost { steps.new ≤ steps.old + bound spec.now (map place_view places.now) }
{
    let firsts = choices_for(is_used(places, Variable::First));
    let seconds = choices_for(is_used(places, Variable::Second));
    let thirds = choices_for(is_used(places, Variable::Third));
    first_over_firsts(alloc, places, spec, firsts, seconds, thirds, steps)
}

fn first_over_firsts<L: Ledger>(
    alloc: Global,
    places: &[Place],
    spec: &IsaSpec,
    firsts: &[Option<u8>],
    seconds: &[Option<u8>],
    thirds: &[Option<u8>],
    steps: &mut Steps<L>,
) -> Result<Option<Items<Insn>>, NoMemory>
    requires first { All IsRegister firsts.now }
    requires second { All IsRegister seconds.now }
    requires third { All IsRegister thirds.now }
    ensures first { IfOk result (λ found. found ≡ first_solutions spec.now
        (map place_view places.now) (flat_map (with_second seconds.now thirds.now) firsts.now)) }
    ensures cost { steps.new ≤ steps.old + length firsts.now * (length seconds.now
        * (length thirds.now * count_of spec.now (map place_view places.now))) }
{
    for first in firsts {
        match first_over_seconds(alloc, places, spec, *first, seconds, thirds, steps)? {
            Some(insns) => return Ok(Some(insns)),
            None => {},
        }
    }
    Ok(None)
}

fn first_over_seconds<L: Ledger>(
    alloc: Global,
    places: &[Place],
    spec: &IsaSpec,
    first: Option<u8>,
    seconds: &[Option<u8>],
    thirds: &[Option<u8>],
    steps: &mut Steps<L>,
) -> Result<Option<Items<Insn>>, NoMemory>
    requires first { IsRegister first }
    requires second { All IsRegister seconds.now }
    requires third { All IsRegister thirds.now }
    ensures first { IfOk result (λ found. found ≡ first_solutions spec.now
        (map place_view places.now) (with_second seconds.now thirds.now first)) }
    ensures cost { steps.new ≤ steps.old + length seconds.now * (length thirds.now
        * count_of spec.now (map place_view places.now)) }
{
    for second in seconds {
        match first_over_thirds(alloc, places, spec, first, *second, thirds, steps)? {
            Some(insns) => return Ok(Some(insns)),
            None => {},
        }
    }
    Ok(None)
}

fn first_over_thirds<L: Ledger>(
    alloc: Global,
    places: &[Place],
    spec: &IsaSpec,
    first: Option<u8>,
    second: Option<u8>,
    thirds: &[Option<u8>],
    steps: &mut Steps<L>,
) -> Result<Option<Items<Insn>>, NoMemory>
    requires first { IsRegister first }
    requires second { IsRegister second }
    requires third { All IsRegister thirds.now }
    ensures first { IfOk result (λ found. found ≡ first_solutions spec.now
        (map place_view places.now) (with_third thirds.now first second)) }
    ensures cost { steps.new ≤ steps.old + length thirds.now
        * count_of spec.now (map place_view places.now) }
{
    for third in thirds {
        let values = Values {
            first,
            second,
            third: *third,
        };
        match solutions(alloc, &values, places, spec, steps)? {
            Some(insns) => return Ok(Some(insns)),
            None => {},
        }
    }
    Ok(None)
}

/// The first instruction of each place under some values of the variables, where each has one.
fn solutions<L: Ledger>(
    alloc: Global,
    values: &Values,
    places: &[Place],
    spec: &IsaSpec,
    steps: &mut Steps<L>,
) -> Result<Option<Items<Insn>>, NoMemory>
    ensures first { IfOk result (λ found.
        found ≡ solutions spec.now values.now (map place_view places.now)) }
    ensures cost { steps.new ≤ steps.old + count_of spec.now (map place_view places.now) }
{
    let mut insns = Items::new(alloc);
    for place in places {
        match solution(values, place, spec, steps) {
            Some(insn) => insns.push(insn)?,
            None => return Ok(None),
        }
    }
    Ok(Some(insns))
}
