// Why a device file is refused.
ghost use Rattle.std.specs.Prelude.{◌≡◌};
ghost use Rattle.rvs_device.specs.Printed.{number_of};

use rvs_base::Text;

/// Why a device file is refused.
#[derive(Drop)]
pub enum DeviceRefusal {
    /// The entry of this name is missing. The name of a device is also missing where the file is no
    /// map, or where it is no scalar.
    MissingEntry {
        /// The entry's key.
        name: Text,
    },
    /// The command isn't a list of scalars, or is empty, or its first word is.
    BadCommand,
    /// A `{` in a word of the command begins none of the six placeholders.
    UnknownPlaceholder {
        /// The first such word, whole.
        word: Text,
    },
}

impl DeviceRefusal {
    /// The number under which a fault line names the refusal: 1 to 3, in the order above.
    pub fn number(&self) -> u8
        ensures { result ≡ number_of self.now }
    {
        match self {
            DeviceRefusal::MissingEntry { .. } => 1,
            DeviceRefusal::BadCommand => 2,
            DeviceRefusal::UnknownPlaceholder { .. } => 3,
        }
    }
}
