// What a command line may ask of counting and of a demonstration.
ghost use Rattle.std.specs.Prelude.{◌≡◌, ◌≤◌};
ghost use Rattle.rvs_base.specs.Asked.{size_of};

use std::marker::Model;

/// Addresses from `lo` on and below `hi`: none where `hi` isn't above `lo`.
#[derive(Clone, Copy)]
pub struct Window {
    /// The first address.
    pub lo: u32,
    /// The first address after the last.
    pub hi: u32,
}

/// How many instructions of a demonstration are generated: 1 to 1,000,000.
#[derive(Clone, Copy)]
pub struct DemoSize {
    count: u64,
}

impl Model for DemoSize {
    ghost use Rattle.std.specs.Prelude.{ℕ, ◌≤◌};

    ghost Value = { ℕ };

    ghost view = { λ s. s.count };

    ghost invariant = { λ s. (1 ≤ s.count) × (s.count ≤ 1000000) };

    ghost inverse = { λ n. record { count = n } };
}

impl DemoSize {
    /// This many, where they are from 1 to 1,000,000.
    pub fn new(count: u64) -> Option<DemoSize>
        ensures { result ≡ size_of count }
    {
        if count >= 1 && count <= 1_000_000 {
            Some(DemoSize { count })
        } else {
            None
        }
    }

    /// The number.
    pub fn count(self) -> u64
        ensures number { result ≡ self }
        ensures low { result ≤ 1000000 }
    {
        self.count
    }
}
