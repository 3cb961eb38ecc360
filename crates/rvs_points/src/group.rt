// Groups of coverage points.
ghost use Rattle.std.specs.Prelude.{◌≡◌};
ghost use Rattle.rvs_points.specs.Kinds.{kind_name};

use rvs_base::{Items, Text};
use rvs_cross::Cross;
use rvs_expr::Expr;
use rvs_insn::Op;

/// What a point is a point of.
#[derive(Clone, Copy)]
pub enum Kind {
    /// A mnemonic.
    Mnemonic,
    /// The first source register.
    Rs1,
    /// The second source register.
    Rs2,
    /// The destination register.
    Rd,
    /// An expression over registers.
    OpComb,
    /// An expression over numbers.
    ValComb,
    /// Neighbouring instructions.
    CrossComb,
}

impl Kind {
    /// The node that points of the kind stand under, as a group file has it.
    pub fn name(self) -> &'static str
        ensures { result.now ≡ kind_name self }
    {
        match self {
            Kind::Mnemonic => "mnemonics",
            Kind::Rs1 => "rs1",
            Kind::Rs2 => "rs2",
            Kind::Rd => "rd",
            Kind::OpComb => "op_comb",
            Kind::ValComb => "val_comb",
            Kind::CrossComb => "cross_comb",
        }
    }
}

/// What a point means.
#[derive(Drop)]
pub enum Meaning {
    /// The mnemonic is this one.
    OpIs(Op),
    /// The register is this one.
    RegIs(u8),
    /// The expression over registers is true.
    Regs(Expr),
    /// The expression over numbers is true.
    Nums(Expr),
    /// Neighbouring instructions match the cross point.
    Window(Cross),
}

/// A coverage point.
pub struct Point {
    /// What it is a point of.
    pub kind: Kind,
    /// Its key.
    pub key: Text,
    /// What it means.
    pub meaning: Meaning,
}

impl Drop for Point {
    fn drop(self) {
        let Point {
            kind: _,
            key,
            meaning,
        } = self;
        drop(key);
        drop(meaning);
    }
}

/// An entry that is listed and not counted.
#[derive(Drop)]
pub struct Skipped {
    /// Its node.
    pub node: Text,
    /// Its key.
    pub key: Text,
}

/// A coverage group. Of one that isn't selected nothing but the name is there.
pub struct Label {
    /// Its name.
    pub name: Text,
    /// Whether it holds for the core.
    pub selected: bool,
    /// Its mnemonics, in order.
    pub ops: Items<Op>,
    /// Its points, in order.
    pub points: Items<Point>,
    /// Its entries that aren't counted.
    pub skipped: Items<Skipped>,
}

impl Drop for Label {
    fn drop(self) {
        let Label {
            name,
            selected: _,
            ops,
            points,
            skipped,
        } = self;
        drop(name);
        drop(ops);
        drop(points);
        drop(skipped);
    }
}

/// The groups of a file, in order.
pub type Groups = Items<Label>;
