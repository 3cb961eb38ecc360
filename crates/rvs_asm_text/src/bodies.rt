// What lines are.
use crate::arguments::Operands;
use crate::names::Name;
use rvs_insn::Insn;

/// Where the number of an immediate or of a word of data comes from.
#[derive(Drop)]
pub enum Link<'t> {
    /// It is written.
    Own,
    /// `%hi(s)`: the upper 20 bits of the symbol's address, for `lui` and `auipc`.
    High(Name<'t>),
    /// `%lo(s)`: the lower 12 bits of the symbol's address, read as a signed number.
    Low(Name<'t>),
    /// The distance from the instruction to the symbol.
    Distance(Name<'t>),
    /// The symbol's address.
    Whole(Name<'t>),
}

/// An immediate or a word of data: a written number, or 0 and a symbol.
#[derive(Drop)]
pub struct Value<'t> {
    pub number: i64,
    pub link: Link<'t>,
}

/// What a statement does.
#[derive(Drop)]
pub enum Body<'t> {
    /// It makes no byte.
    Nothing,
    /// It goes on in the text.
    ToText,
    /// It goes on in the data.
    ToData,
    /// It makes an instruction, whose immediate is 0 where a symbol gives it.
    Insn(Insn, Link<'t>),
    /// It makes numbers of 1, 2 or 4 bytes.
    Values(u8, Operands<'t>),
    /// It goes to the next multiple of two to this power, 0 to 12.
    Align(u8),
    /// It makes a count of equal numbers of 1, 2 or 4 bytes.
    Fill(u64, u8, i64),
}

/// A line: its label, and what its statement does.
#[derive(Drop)]
pub struct Line<'t> {
    pub label: Option<Name<'t>>,
    pub body: Body<'t>,
}

/// What is wrong with a line by itself.
#[derive(Drop, Clone, Copy)]
pub enum LineFault {
    /// Outside a comment stands a byte that may not, a comma has nothing at a side, a label can't
    /// be a symbol's name, or the section of the instruction is data.
    BadLine,
    /// The first word names no instruction and no directive.
    UnknownInstruction,
    /// The operands aren't as many as are wanted, or not of the sort.
    BadOperand,
    /// A number outside its field, the leftmost such.
    OutOfRange(i64),
}
