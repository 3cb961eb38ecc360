// Cross points.
ghost use Rattle.std.specs.Prelude.{◌≡◌, ◌≤◌, length};
ghost use Rattle.std.proofs.Props.{props};
ghost use Rattle.rvs_cross.specs.Used.{is_used, assigns_once};
ghost use Rattle.rvs_cross.specs.declared.cross.Variable.TheVariants as variable;

use crate::used::{assigns_once, is_used};
use rvs_base::Items;
use rvs_expr::Expr;
use rvs_insn::Op;

/// A name for a register that several places share. A cross point has at most three, in the order
/// in which they appear first.
#[derive(Clone, Copy, Debug)]
pub enum Variable {
    /// The first.
    First,
    /// The second.
    Second,
    /// The third.
    Third,
}

/// A register field of an instruction.
#[derive(Clone, Copy, Debug)]
pub enum Field {
    /// The destination register.
    Rd,
    /// The first source register.
    Rs1,
    /// The second source register.
    Rs2,
}

/// That a variable is the register in a field.
#[derive(Clone, Copy)]
pub struct Assignment {
    /// The variable.
    pub variable: Variable,
    /// The field.
    pub field: Field,
}

/// What a cross point asks of one instruction.
pub struct Place {
    /// Its mnemonics; none where any will do.
    pub ops: Option<Items<Op>>,
    /// What it says of the variables.
    pub sets: Items<Assignment>,
    /// An expression over registers, which may use variables.
    pub condition: Option<Expr>,
}

impl Drop for Place {
    fn drop(self) {
        let Place {
            ops,
            sets,
            condition,
        } = self;
        drop(ops);
        drop(sets);
        drop(condition);
    }
}

/// Which variables the places of a cross point say something of.
#[derive(Clone, Copy)]
pub(crate) struct Used {
    pub(crate) first: bool,
    pub(crate) second: bool,
    pub(crate) third: bool,
}

/// A cross point: one to six places, for instructions one after the other.
#[derive(Drop)]
pub struct Cross {
    pub(crate) list: Items<Place>,
    pub(crate) used: Used,
    /// Whether no variable has two assignments.
    pub(crate) once: bool,
    ghost first: { used.first ≡ is_used list variable.First } by { Prim.hlevel props },
    ghost second: { used.second ≡ is_used list variable.Second } by { Prim.hlevel props },
    ghost third: { used.third ≡ is_used list variable.Third } by { Prim.hlevel props },
    ghost alone: { once ≡ assigns_once list } by { Prim.hlevel props },
    ghost some: { 1 ≤ length list } by { Prim.hlevel props },
    ghost few: { length list ≤ 6 } by { Prim.hlevel props },
}

impl Cross {
    ghost use Rattle.std.specs.Prelude.{◌≡◌, ◌≤◌, length};

    /// The cross point of these places. It takes no memory.
    pub(crate) fn new(list: Items<Place>) -> Self
        requires some { 1 ≤ length list }
        requires few { length list ≤ 6 }
        ensures { result.list ≡ list }
    {
        let places = list.as_slice();
        let used = Used {
            first: is_used(places, Variable::First),
            second: is_used(places, Variable::Second),
            third: is_used(places, Variable::Third),
        };
        let once = assigns_once(places);
        Cross { list, used, once }
    }
}

/// How many places a cross point has: 1 to 6. It takes no memory.
pub fn places(cross: &Cross) -> usize
    ensures count { result ≡ length cross.now.list }
    ensures some { 1 ≤ result }
    ensures few { result ≤ 6 }
{
    cross.list.as_slice().len()
}

/// The places of a cross point, in their order. It takes no memory.
pub fn in_order(cross: &Cross) -> &[Place]
    ensures { result.now ≡ cross.now.list }
{
    cross.list.as_slice()
}
