// What the variables of a cross point stand for.
ghost use Rattle.std.specs.Prelude.{◌≡◌};
ghost use Rattle.rvs_insn.specs.Fields.{IsRegister};
ghost use Rattle.rvs_cross.specs.Windows.{value_of, register_in, same_register, is_set};

use crate::cross::{Assignment, Field, Variable};
use rvs_insn::Insn;
use std::marker::Model;

/// The registers that the variables stand for; one that no place sets stands for none. Registers
/// are below 32, by an invariant of the type.
#[derive(Clone, Copy)]
pub struct Values {
    /// What the first variable stands for.
    pub first: Option<u8>,
    /// The second.
    pub second: Option<u8>,
    /// The third.
    pub third: Option<u8>,
}

impl Model for Values {
    ghost use Rattle.rvs_insn.specs.Fields.{IsRegister};
    ghost use Rattle.rvs_cross.specs.Windows as windows;

    ghost Value = { windows.Values };

    ghost view = { λ v. record { first = v.first; second = v.second; third = v.third } };

    ghost invariant = { λ v. IsRegister v.first × IsRegister v.second × IsRegister v.third };

    ghost inverse = { λ v. record { first = v.first; second = v.second; third = v.third } };
}

/// What a variable stands for.
#[inline(always)]
pub fn value_of(values: &Values, variable: Variable) -> Option<u8>
    ensures { result ≡ value_of values.now variable }
{
    match variable {
        Variable::First => values.first,
        Variable::Second => values.second,
        Variable::Third => values.third,
    }
}

/// The register in a field, where the instruction has that field.
#[inline(always)]
pub(crate) fn register_in(insn: &Insn, field: Field) -> Option<u8>
    ensures value { result ≡ register_in insn.now field }
    ensures register { IsRegister result }
{
    match field {
        Field::Rd => insn.rd,
        Field::Rs1 => insn.rs1,
        Field::Rs2 => insn.rs2,
    }
}

/// Whether both are there, and they are one.
#[inline(always)]
pub fn same_register(left: Option<u8>, right: Option<u8>) -> bool
    ensures { result ≡ same_register left right }
{
    match (left, right) {
        (Some(left), Some(right)) => left == right,
        _ => false,
    }
}

/// Whether the variable is the register in the field.
#[inline(always)]
pub(crate) fn is_set(values: &Values, insn: &Insn, assignment: &Assignment) -> bool
    ensures { result ≡ is_set values.now insn.now assignment.now }
{
    let value = value_of(values, assignment.variable);
    same_register(value, register_in(insn, assignment.field))
}
