// Why an ISA specification is refused.
ghost use Rattle.std.specs.Prelude.{◌≡◌};
ghost use Rattle.rvs_isa.specs.Print.{number_of};

use rvs_base::Text;

/// Which check of an ISA specification failed.
#[derive(Clone, Copy)]
pub enum IsaKind {
    /// What should be a map isn't one.
    NotAMapping,
    /// An entry is missing.
    MissingEntry,
    /// The ISA text isn't `RV32`, a base, letters in order and extensions with a Z.
    BadIsaText,
    /// The ISA text names something that this suite doesn't have.
    UnsupportedExtension,
    /// `supported_xlen` isn't the list of the one scalar 32.
    BadXlen,
    /// `physical_addr_sz` isn't a number from 32 to 34.
    BadAddressSize,
    /// The reset value of `misa` isn't the word that the ISA text calls for.
    MisaDisagrees {
        /// The word in the file.
        stated: u32,
        /// The word that the ISA text calls for.
        expected: u32,
    },
    /// `hart_ids` isn't a list of one member.
    HartCount,
    /// `hw_data_misaligned_support` isn't a truth value.
    BadTruth,
    /// A number has another shape, or doesn't fit 32 bits.
    BadNumber,
    /// `memory_map` isn't a map, one of its addresses is no multiple of 4,096, or both are one.
    BadMemory,
}

impl IsaKind {
    /// The number under which a fault line names the kind: 1 to 11, in the order above.
    pub fn number(self) -> u8
        ensures { result ≡ number_of self }
    {
        match self {
            IsaKind::NotAMapping => 1,
            IsaKind::MissingEntry => 2,
            IsaKind::BadIsaText => 3,
            IsaKind::UnsupportedExtension => 4,
            IsaKind::BadXlen => 5,
            IsaKind::BadAddressSize => 6,
            IsaKind::MisaDisagrees { .. } => 7,
            IsaKind::HartCount => 8,
            IsaKind::BadTruth => 9,
            IsaKind::BadNumber => 10,
            IsaKind::BadMemory => 11,
        }
    }
}

/// Why an ISA specification is refused: the first check that fails, and where.
#[derive(Drop)]
pub struct IsaRefusal {
    /// The keys on the way to the entry that the check looks at, joined by `.`.
    pub path: Text,
    /// The check that fails.
    pub kind: IsaKind,
}
