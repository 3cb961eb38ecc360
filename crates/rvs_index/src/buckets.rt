// Where a point is looked for.
ghost use Rattle.std.specs.Prelude.{◌≡◌, ◌<◌};
ghost use Rattle.rvs_points.specs.PointView.{point_view};
ghost use Rattle.rvs_expr.specs.Meaning.{IsNarrowFormula};
ghost use Rattle.rvs_expr.specs.TypedView.{view};
ghost use Rattle.rvs_index.specs.Buckets.{bucket_count};
ghost use Rattle.rvs_index.specs.Buckets as spec;

use rvs_expr::{Formula, NumName, equation_of};
use rvs_free::Free;
use rvs_points::{Kind, Meaning, Point};

/// How many lists there are for a mnemonic.
pub(crate) const BUCKETS: usize = 365;

/// A multiple of 67 above 2^32.
const LIFT: i64 = 67 << 26;

/// A number's remainder by a prime. A multiple of it lifts most numbers above 0, so that no branch
/// asks for their sign.
#[tactic(auto, using(crate::proofs::Lifts::lifted, crate::proofs::Seen::residue_low))]
#[inline(always)]
fn residue(value: i64) -> usize
    ensures value { result ≡ spec.residue value }
    ensures low { result < 67 }
{
    if value >= -LIFT && value <= LIFT {
        ((value + LIFT).unsigned_abs() % 67) as usize
    } else {
        value.rem_euclid(67).unsigned_abs() as usize
    }
}

fn register_bucket(kind: Kind, register: u8) -> usize
    ensures value { result ≡ spec.register_bucket kind register }
    ensures low { result < 97 }
{
    let place = usize::from(register % 32);
    match kind {
        Kind::Rd => 1 + place,
        Kind::Rs1 => 33 + place,
        Kind::Rs2 => 65 + place,
        _ => 0,
    }
}

pub(crate) fn number_bucket(name: NumName, value: i64) -> usize
    ensures value { result ≡ spec.number_bucket name value }
    ensures low { result < bucket_count }
{
    let place = residue(value);
    match name {
        NumName::Rs1Val => 97 + place,
        NumName::Rs2Val => 164 + place,
        NumName::ImmVal => 231 + place,
        NumName::EaAlign => 298 + place,
    }
}

/// An equation, where its number isn't 0 or is a place: how another number compares with 0 is a
/// sign.
fn but_zero(equation: Option<(NumName, i64)>) -> Option<(NumName, i64)>
    ensures { result ≡ spec.but_zero equation }
{
    match equation {
        None => None,
        Some((NumName::EaAlign, value)) => Some((NumName::EaAlign, value)),
        Some((_, 0)) => None,
        Some((name, value)) => Some((name, value)),
    }
}

/// The first such equation among the parts of a conjunction.
fn conjunct(formula: &Formula) -> Option<(NumName, i64)>
    requires { IsNarrowFormula (view formula.now) }
    ensures { result ≡ spec.conjunct (view formula.now) }
{
    match formula {
        Formula::Both(left, right) => match conjunct(left) {
            None => conjunct(right),
            Some(equation) => Some(equation),
        },
        _ => but_zero(equation_of(formula, Free::new())),
    }
}

/// The list of an expression, by the equation by whose number it is looked for.
fn formula_bucket(formula: &Formula) -> usize
    requires { IsNarrowFormula (view formula.now) }
    ensures { result ≡ spec.equation_bucket (spec.asked_by (view formula.now)) }
{
    let equation = match formula {
        Formula::Both(_, _) => conjunct(formula),
        _ => equation_of(formula, Free::new()),
    };
    match equation {
        None => 0,
        Some((name, value)) => number_bucket(name, value),
    }
}

/// The list that a point stands in, by its shape: a register by its field and number, `name ==
/// constant`, alone or in a conjunction, by the name and the constant's remainder, and all others
/// in the first; but a cross point stands in none.
pub(crate) fn bucket_of(point: &Point) -> usize
    ensures { result ≡ spec.bucket_of (point_view point.now) }
{
    match &point.meaning {
        Meaning::OpIs(_) => 0,
        Meaning::RegIs(register) => register_bucket(point.kind, *register),
        Meaning::Regs(_) => 0,
        Meaning::Nums(expr) => formula_bucket(expr.formula(Free::new())),
        Meaning::Window(_) => BUCKETS,
    }
}
