// Why a cross point is refused.
ghost use Rattle.std.specs.Prelude.{◌≡◌};
ghost use Rattle.rvs_cross.specs.Refusals.{number_of};

use crate::cross::Cross;
use rvs_base::Text;
use rvs_expr::ExprRefusal;

/// What a text is.
#[derive(Drop)]
pub enum CrossRead {
    /// A cross point.
    Read(Cross),
    /// One that names a class of instructions, which is listed and not counted.
    Skipped,
}

/// Why the text of a cross point is refused.
#[derive(Drop)]
pub enum CrossRefusal {
    /// It isn't three lists of this shape.
    BadList,
    /// The lists differ in length.
    LengthsDiffer,
    /// More than six places.
    TooManyPlaces,
    /// More than three variables.
    TooManyVariables,
    /// A name that is no word of the language of registers, and that no place assigns.
    UnassignedVariable {
        /// The name.
        name: Text,
    },
    /// A mnemonic isn't known.
    UnknownMnemonic {
        /// The mnemonic.
        name: Text,
    },
    /// An entry is no expression over registers; its column counts in the entry.
    Expr(ExprRefusal),
}

impl CrossRefusal {
    /// The number under which a fault line names the kind: 1 to 7, in the order above.
    pub fn number(&self) -> u8
        ensures { result ≡ number_of self.now }
    {
        match self {
            CrossRefusal::BadList => 1,
            CrossRefusal::LengthsDiffer => 2,
            CrossRefusal::TooManyPlaces => 3,
            CrossRefusal::TooManyVariables => 4,
            CrossRefusal::UnassignedVariable { .. } => 5,
            CrossRefusal::UnknownMnemonic { .. } => 6,
            CrossRefusal::Expr(_) => 7,
        }
    }
}
