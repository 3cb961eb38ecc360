// Refusals.
ghost use Rattle.std.specs.Prelude.{◌≡◌};
ghost use Rattle.rvs_asm.specs.Faults.{kind_of};
ghost use Rattle.rvs_asm.specs.KindNumbers.{kind_number};

use rvs_asm_text::LineFault;
use rvs_base::{Fault, Text};

/// Why no image stands to a text.
#[derive(Drop)]
pub enum AsmKind {
    /// Outside a comment stands a byte that may not, a comma has nothing at a side, a label can't
    /// be a symbol's name, or the section of the instruction is data.
    BadLine,
    /// The first word names no instruction and no directive.
    UnknownInstruction,
    /// The operands aren't as many as are wanted, or not of the sort.
    BadOperand,
    /// A number, or a way to a label, doesn't fit into its field; or that way is odd.
    OutOfRange {
        /// The leftmost such number.
        value: i64,
    },
    /// No line has the symbol as its label.
    UnknownSymbol,
    /// An earlier line has the same label.
    DoubleSymbol,
    /// A line of the text section that takes another number of bytes than whole words have.
    MisalignedCode,
    /// The text passes 16 MiB.
    TextFull,
    /// The data passes 1 MiB.
    DataFull,
    /// One of `tohost`, `begin_signature` and `end_signature` isn't a symbol of data.
    MissingSymbol {
        /// The first such name.
        name: Text,
    },
    /// The core lacks the instruction, or one of its registers.
    NotInIsa,
    /// The word at `tohost` or the signature doesn't lie in the data, or is not aligned.
    BadRegion,
}

/// A refusal, with the number of its line from 1. Line 0 is that of the whole text: of a missing
/// symbol and a bad region.
#[derive(Drop)]
pub struct AsmRefusal {
    pub line: u64,
    pub kind: AsmKind,
}

impl AsmKind {
    /// The number of the kind, from 1 to 12 in the order in which they are declared.
    pub fn number(&self) -> u8
        ensures { result ≡ kind_number self.now }
    {
        match self {
            AsmKind::BadLine => 1,
            AsmKind::UnknownInstruction => 2,
            AsmKind::BadOperand => 3,
            AsmKind::OutOfRange { .. } => 4,
            AsmKind::UnknownSymbol => 5,
            AsmKind::DoubleSymbol => 6,
            AsmKind::MisalignedCode => 7,
            AsmKind::TextFull => 8,
            AsmKind::DataFull => 9,
            AsmKind::MissingSymbol { .. } => 10,
            AsmKind::NotInIsa => 11,
            AsmKind::BadRegion => 12,
        }
    }
}

/// The fault of a line by itself, as a kind of refusal.
pub fn kind_of_fault(fault: LineFault) -> AsmKind
    ensures { result ≡ kind_of fault }
{
    match fault {
        LineFault::BadLine => AsmKind::BadLine,
        LineFault::UnknownInstruction => AsmKind::UnknownInstruction,
        LineFault::BadOperand => AsmKind::BadOperand,
        LineFault::OutOfRange(value) => AsmKind::OutOfRange { value },
    }
}

impl From<AsmRefusal> for Fault<AsmRefusal> {
    ghost use Rattle.rvs_base.specs.declared.fault.Fault.TheVariants.{Refused};

    ghost from_gives = { λ refusal fault. fault ≡ Refused refusal };

    fn from(refusal: AsmRefusal) -> Self {
        Fault::Refused(refusal)
    }
}
