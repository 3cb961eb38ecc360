// The coverage group of the demonstration.
ghost use Rattle.std.specs.Prelude.{◌≡◌, ◌++◌, IfOk, OnOk, map, option_map};
ghost use Rattle.rvs_points.specs.PointView.{label_view, point_view};
ghost use Rattle.rvs_points.specs.Points.{says};
ghost use Rattle.rvs_demo.specs.Label as spec;

use rvs_base::{Items, NoMemory, Text, beside};
use rvs_insn::Op;
use rvs_points::{Kind, Label, Point, Said, read_key};
use std::alloc::Global;

const MNEMONICS: [&str; 8] = ["add", "sub", "xor", "or", "and", "slt", "sltu", "mul"];

const REGISTERS: [&str; 8] = ["x8", "x9", "x10", "x11", "x12", "x13", "x14", "x15"];

const EQUATIONS: [&str; 3] = ["rs1 == rs2", "rs1 != rs2", "rs1 == rd"];

const COMPARISONS: [&str; 3] = ["rs1_val > 0", "rs1_val < 0", "rs1_val == 0"];

const HAZARDS: [&str; 1] = ["[? : ?] :: [a=rd : ?] :: [? : rs1 == a or rs2 == a]"];

/// The point of a key, where it says one.
fn point(alloc: Global, kind: Kind, key: &str) -> Result<Option<Point>, NoMemory>
    ensures { IfOk result
        (λ p. option_map point_view p ≡ spec.told kind key.now (says kind key.now)) }
{
    match read_key(alloc, kind, key)? {
        Said::Means(meaning) => {
            let (key, meaning) = beside(String::from_str(alloc, key), meaning)?;
            let key = Text::from(key);
            Ok(Some(Point { kind, key, meaning }))
        }
        Said::Nothing | Said::Wrong(_) => Ok(None),
    }
}

/// Adds the points of some keys.
#[tactic(auto, unfolding(crate::specs::Label::points_of))]
fn add_points(
    alloc: Global,
    points: &mut Vec<Point>,
    kind: Kind,
    keys: &[&str],
) -> Result<(), NoMemory>
    ensures { OnOk result (map point_view points.new.items ≡ map point_view points.old.items
        ++ spec.points_of kind (map (λ key. key.now) keys.now)) }
{
    for key in keys {
        match point(alloc, kind, *key)? {
            None => {},
            Some(point) => points.push(point)?,
        }
    }
    Ok(())
}

/// Adds the points of the group.
fn add_all(alloc: Global, points: &mut Vec<Point>) -> Result<(), NoMemory>
    ensures { OnOk result (map point_view points.new.items
        ≡ map point_view points.old.items ++ spec.points) }
{
    add_points(alloc, points, Kind::Mnemonic, &MNEMONICS)?;
    add_points(alloc, points, Kind::Rs1, &REGISTERS)?;
    add_points(alloc, points, Kind::Rs2, &REGISTERS)?;
    add_points(alloc, points, Kind::Rd, &REGISTERS)?;
    add_points(alloc, points, Kind::OpComb, &EQUATIONS)?;
    add_points(alloc, points, Kind::ValComb, &COMPARISONS)?;
    add_points(alloc, points, Kind::CrossComb, &HAZARDS)?;
    Ok(())
}

/// The group of the demonstration: its eight mnemonics, the registers x8 to x15, equations,
/// comparisons, and that an instruction reads what the one before it writes.
///
/// # Errors
///
/// [`NoMemory`].
#[tactic(auto, unfolding(crate::specs::Label::label))]
pub(crate) fn label(alloc: Global) -> Result<Label, NoMemory>
    ensures { IfOk result (λ label. label_view label ≡ spec.label) }
{
    let mut points = Vec::new(alloc);
    let ((), points) = beside(add_all(alloc, &mut points), points)?;
    let ops = [
        Op::Add,
        Op::Sub,
        Op::Xor,
        Op::Or,
        Op::And,
        Op::Slt,
        Op::Sltu,
        Op::Mul,
    ]
    .to_vec(alloc);
    let (ops, points) = beside(ops, points)?;
    let (name, (ops, points)) = beside(String::from_str(alloc, "demo"), (ops, points))?;
    Ok(Label {
        name: Text::from(name),
        selected: true,
        ops: Items::from(ops),
        points: Items::from(points),
        skipped: Items::new(alloc),
    })
}
