// Addresses of lines.
ghost use Rattle.std.specs.Prelude.{◌≡◌, ◌<◌, ◌^◌};

use std::marker::Model;

/// The address of a line: below 2^32 where the line makes bytes, and 2^32 where it stands behind a
/// full region that ends there.
#[derive(Drop, Clone, Copy)]
pub struct LineAddress {
    value: u64,
}

impl Model for LineAddress {
    ghost use Rattle.std.specs.Prelude.{ℕ, ◌<◌, ◌^◌};

    ghost Value = { ℕ };

    ghost view = { λ a. a.value };

    ghost invariant = { λ a. a.value < 2 ^ 33 };

    ghost inverse = { λ n. record { value = n } };
}

impl LineAddress {
    pub(crate) fn new(value: u64) -> LineAddress
        requires { value < 2 ^ 33 }
        ensures { result ≡ value }
    {
        LineAddress { value }
    }

    /// The number.
    pub fn value(self) -> u64
        ensures number { result ≡ self }
        ensures low { result < 2 ^ 33 }
    {
        self.value
    }
}
