// What solves a point.
use crate::choice::Choice;
use rvs_base::Items;
use rvs_insn::Insn;

/// What solves a point.
#[derive(Drop)]
pub enum Solved {
    /// One instruction, whose source registers hold two words.
    One(Choice),
    /// One to six instructions, one after the other.
    Many(Items<Insn>),
}
