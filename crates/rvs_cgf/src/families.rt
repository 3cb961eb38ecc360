// The points of families.
ghost use Rattle.std.specs.Prelude.{◌≡◌, ◌+◌, ◌-◌, ◌<◌, ◌≤◌, ◌^◌, ◌∷◌, ◌++◌, [], map, zero, length};
ghost use Rattle.std.specs.Prelude.{drop, Some, None, IfOk, IsTrue, Ok, unsigned_abs};
ghost use Rattle.rvs_tree.specs.Data.{own_pairs, is_map, is_scalar};
ghost use Rattle.rvs_tree.specs.TreeView as tree;
ghost use Rattle.rvs_expr.specs.Equation.{name_of, key_of};
ghost use Rattle.rvs_abstract.specs.CallView.{ranged_view, read_call_view};
ghost use Rattle.rvs_cgf.specs.Groups as spec;
ghost use Rattle.rvs_cgf.specs.GroupView.{AnswersWith, taken_view, point_view};
ghost use Rattle.rvs_cgf.specs.PlaceView.{place_view};

use crate::place::At;
use crate::refusal::CgfRefusal;
use crate::walk::{Taken, add, is_shaped, refusal, skip};
use rvs_abstract::{Call, Families, Family4, len, read_call, value};
use rvs_base::{Fault, NoMemory, Text};
use rvs_expr::{Expr, NumName, parse_num};
use rvs_points::{CgfKind, Kind, Meaning, Point};
use rvs_tree::Tree;
use std::alloc::Global;

fn written(name: NumName) -> &'static str
    ensures { result.now ≡ name_of name }
{
    match name {
        NumName::Rs1Val => "rs1_val",
        NumName::Rs2Val => "rs2_val",
        NumName::ImmVal => "imm_val",
        NumName::EaAlign => "ea_align",
    }
}

/// The point at which a variable has a value.
fn value_point(alloc: Global, var: NumName, value: i64) -> Result<Point, NoMemory>
    ensures { IfOk result (λ p. point_view p ≡ spec.value_point var value) }
{
    let name = written(var);
    let key = Text::from(format!(in alloc; "{name} == {value}")?);
    let expr = Expr::equals(alloc, var, value)?;
    Ok(Point {
        kind: Kind::ValComb,
        key,
        meaning: Meaning::Nums(expr),
    })
}

/// Adds the points of the values of a family.
fn family_values(
    alloc: Global,
    place: At<'_>,
    f: &Family4,
    taken: &mut Taken,
) -> Result<(), Fault<CgfRefusal>>
    ensures { AnswersWith (λ _. taken_view taken.new) result
        (spec.values (place_view place.entry) (ranged_view f.now) (taken_view taken.old)) }
{
    for k in 0..len(f) {
        let point = value_point(alloc, f.var, value(f, k))?;
        match add(alloc, place, point, taken) {
            Ok(()) => {}
            Err(why) => return Err(why),
        }
    }
    Ok(())
}

/// The point at which two variables have values. The key is an expression, so that what its reader
/// refuses it for is want of memory.
fn pair_point(
    alloc: Global,
    var: NumName,
    value: i64,
    other: NumName,
    beside: i64,
) -> Result<Point, NoMemory>
    requires first { unsigned_abs value ≤ 2 ^ 32 }
    requires second { unsigned_abs beside ≤ 2 ^ 32 }
    ensures { IfOk result (λ p. point_view p ≡ spec.pair_point var value other beside) }
{
    let name = written(var);
    let second = written(other);
    let key = Text::from(format!(in alloc; "{name} == {value} and {second} == {beside}")?);
    match parse_num(alloc, key.as_str()) {
        Ok(expr) => Ok(Point {
            kind: Kind::ValComb,
            key,
            meaning: Meaning::Nums(expr),
        }),
        Err(_) => Err(NoMemory),
    }
}

/// Adds the points of the j-th value of one family with all of another.
fn with_jth(
    alloc: Global,
    place: At<'_>,
    a: &Family4,
    b: &Family4,
    j: u32,
    taken: &mut Taken,
) -> Result<(), Fault<CgfRefusal>>
    requires { j < spec.length_of a.now.family a.now.size a.now.signed }
    ensures { AnswersWith (λ _. taken_view taken.new) result
        (spec.with_jth (place_view place.entry) (ranged_view a.now) (ranged_view b.now) j
        (taken_view taken.old)) }
{
    let first = value(a, j);
    for k in 0..len(b) {
        let point = pair_point(alloc, a.var, first, b.var, value(b, k))?;
        match add(alloc, place, point, taken) {
            Ok(()) => {}
            Err(why) => return Err(why),
        }
    }
    Ok(())
}

/// Adds the points of all values of one family with all of another.
fn family_pairs(
    alloc: Global,
    place: At<'_>,
    a: &Family4,
    b: &Family4,
    taken: &mut Taken,
) -> Result<(), Fault<CgfRefusal>>
    ensures { AnswersWith (λ _. taken_view taken.new) result
        (spec.pairs (place_view place.entry) (ranged_view a.now) (ranged_view b.now)
        (taken_view taken.old)) }
{
    for j in 0..len(a) {
        match with_jth(alloc, place, a, b, j, taken) {
            Ok(()) => {}
            Err(why) => return Err(why),
        }
    }
    Ok(())
}

/// Adds one entry of `abstract_comb`: the points of a call, or its skipped line.
pub fn abstract_entry(
    alloc: Global,
    families: Families,
    place: At<'_>,
    entry: &Tree,
    taken: &mut Taken,
) -> Result<(), Fault<CgfRefusal>>
    ensures { AnswersWith (λ _. taken_view taken.new) result
        (spec.abstract_entry families (place_view place.entry) (tree.view entry.now)
        (taken_view taken.old)) }
{
    if !is_shaped(place.key, entry) {
        return Err(refusal(alloc, place, CgfKind::BadShape));
    }
    match read_call(families, place.key) {
        Ok(Call::Points(f)) => family_values(alloc, place, &f, taken),
        Ok(Call::Pairs(a, b)) => family_pairs(alloc, place, &a, &b, taken),
        Ok(Call::Skipped) => skip(alloc, place, taken),
        Err(why) => Err(refusal(alloc, place, CgfKind::BadAbstract(why))),
    }
}
