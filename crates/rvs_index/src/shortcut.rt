// Points that say a mnemonic, a register, or numbers and signs.
ghost use Rattle.std.specs.Prelude.{◌≡◌, IfSome};
ghost use Rattle.rvs_points.specs.PointView.{point_view};
ghost use Rattle.rvs_points.specs.Hits as hit;
ghost use Rattle.rvs_index.specs.Shortcuts as spec;
ghost use Rattle.rvs_index.specs.Signs.{signs_of, signs_word};
ghost use Rattle.rvs_expr.specs.Equated as equated;
ghost use Rattle.rvs_expr.specs.Meaning.{Table};
ghost use Rattle.rvs_insn.specs.declared.op.Op as mnemonic;

use crate::said::said_by;
use crate::taken::has_all;
use rvs_expr::{Facts, NumName, RegName};
use rvs_facts::is_same;
use rvs_free::Free;
use rvs_insn::Op;
use rvs_points::{Kind, Meaning, Point};

/// What a point says, where no expression is worked out to see whether it is hit. Signs are the
/// bits of a mask.
#[derive(Clone, Copy)]
pub enum Shortcut {
    /// The mnemonic is this one.
    Mnemonic(Op),
    /// The register of this name is this one.
    Register(RegName, u8),
    /// The number of this name is this one.
    Number(NumName, i64),
    /// These signs are so.
    Signs(u32),
    /// These signs are so, and the number of this name is this one.
    Valued(u32, NumName, i64),
    /// The same of two numbers: their names, and then their values.
    Values(u32, NumName, NumName, i64, i64),
}

/// Whether a number is there and is this one.
fn is_value(value: i64, found: Option<i64>) -> bool
    ensures { result ≡ equated.is_value value found }
{
    match found {
        None => false,
        Some(found) => found == value,
    }
}

/// Whether a register is there and is this one.
fn is_register(number: u8, found: Option<u8>) -> bool
    ensures { result ≡ hit.is_register number found }
{
    match found {
        None => false,
        Some(found) => found == number,
    }
}

impl Shortcut {
    /// Whether it is so of an instruction of this mnemonic, with these facts and their signs.
    #[inline(always)]
    pub(crate) fn holds<F: Facts>(self, op: Op, facts: &F, signs: u32) -> bool
        requires { signs ≡ signs_word (signs_of (F.table facts.now)) }
        ensures { result ≡ spec.says self op (F.table facts.now) }
    {
        match self {
            Shortcut::Mnemonic(mnemonic) => is_same(mnemonic, op),
            Shortcut::Register(name, number) => is_register(number, facts.reg(name)),
            Shortcut::Number(name, value) => is_value(value, facts.num(name)),
            Shortcut::Signs(mask) => has_all(signs, mask),
            Shortcut::Valued(mask, name, value) => {
                is_value(value, facts.num(name)) && has_all(signs, mask)
            },
            Shortcut::Values(mask, name, other, value, second) => {
                is_value(value, facts.num(name))
                    && is_value(second, facts.num(other))
                    && has_all(signs, mask)
            },
        }
    }
}

/// What a point says, where it is a mnemonic, a register, or numbers and signs.
pub(crate) fn shortcut_of(point: &Point) -> Option<Shortcut>
    ensures { IfSome result (λ s. (op : mnemonic.Op) (t : Table) →
        hit.holds (point_view point.now) op t ≡ spec.says s op t) }
{
    match &point.meaning {
        Meaning::OpIs(mnemonic) => Some(Shortcut::Mnemonic(*mnemonic)),
        Meaning::RegIs(number) => match point.kind {
            Kind::Rd => Some(Shortcut::Register(RegName::Rd, *number)),
            Kind::Rs1 => Some(Shortcut::Register(RegName::Rs1, *number)),
            Kind::Rs2 => Some(Shortcut::Register(RegName::Rs2, *number)),
            _ => None,
        },
        Meaning::Nums(expr) => match expr.equation(Free::new()) {
            None => said_by(expr.formula(Free::new())),
            Some((name, value)) => Some(Shortcut::Number(name, value)),
        },
        Meaning::Regs(expr) => said_by(expr.formula(Free::new())),
        _ => None,
    }
}
