// When an instruction hits a point.
ghost use Rattle.std.specs.Prelude.{◌≡◌, ◌+◌};
ghost use Rattle.rvs_points.specs.PointView.{meaning_view, point_view};
ghost use Rattle.rvs_points.specs.Hits as spec;

use crate::group::{Kind, Meaning, Point};
use rvs_expr::{Facts, RegName, Steps};
use rvs_facts::is_same;
use rvs_insn::Op;
use std::sync::ledger::Ledger;

/// The field that a point of registers is a point of.
fn field<F: Facts>(kind: Kind, facts: &F) -> Option<u8>
    ensures { result ≡ spec.field_of kind (F.table facts.now) }
{
    match kind {
        Kind::Rs1 => facts.reg(RegName::Rs1),
        Kind::Rs2 => facts.reg(RegName::Rs2),
        Kind::Rd => facts.reg(RegName::Rd),
        _ => None,
    }
}

fn is_register(number: u8, field: Option<u8>) -> bool
    ensures { result ≡ spec.is_register number field }
{
    match field {
        None => false,
        Some(field) => field == number,
    }
}

/// Whether an instruction of this mnemonic and with these facts is what a point of this kind
/// means; none alone is what a cross point means. It takes no memory, and one step where the point
/// has an expression.
pub fn is_meant<F: Facts, L: Ledger>(
    kind: Kind,
    meaning: &Meaning,
    op: Op,
    facts: &F,
    steps: &mut Steps<L>,
) -> bool
    ensures value { result ≡ spec.is_meant kind (meaning_view meaning.now) op (F.table facts.now) }
    ensures steps { steps.new ≡ steps.old + spec.steps_of (meaning_view meaning.now) }
{
    match meaning {
        Meaning::OpIs(mnemonic) => is_same(*mnemonic, op),
        Meaning::RegIs(number) => is_register(*number, field(kind, facts)),
        Meaning::Regs(expr) => expr.eval(facts, steps),
        Meaning::Nums(expr) => expr.eval(facts, steps),
        Meaning::Window(_) => false,
    }
}

impl Point {
    /// Whether an instruction of this mnemonic and with these facts is what the point means: its
    /// mnemonic is the key, or its field is, or the expression is defined and true; none alone is
    /// what a cross point means. It takes no memory, and one step where the point has an
    /// expression.
    pub fn holds<F: Facts, L: Ledger>(&self, op: Op, facts: &F, steps: &mut Steps<L>) -> bool
        ensures value { result ≡ spec.holds (point_view self.now) op (F.table facts.now) }
        ensures steps { steps.new ≡ steps.old + spec.steps_of (point_view self.now).meaning }
    {
        is_meant(self.kind, &self.meaning, op, facts, steps)
    }
}
