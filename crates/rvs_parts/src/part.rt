// A part of several.
ghost use Rattle.std.specs.Prelude.{◌≡◌, ◌≤◌};
ghost use Rattle.rvs_parts.specs.Parts.{has, part_between};

use std::marker::Model;

/// The part of a number, from 1 on, of so many, which are 4,096 at most.
#[derive(Clone, Copy)]
pub struct Part {
    at: u64,
    of: u64,
}

impl Model for Part {
    ghost use Rattle.std.specs.Prelude.{◌≤◌};
    ghost use Rattle.rvs_parts.specs.Parts.{PartValue};

    ghost Value = { PartValue };

    ghost view = { λ p. record { at = p.at; of = p.of } };

    ghost invariant = { λ p. (1 ≤ p.at) × (p.at ≤ p.of) × (p.of ≤ 4096) };

    ghost inverse = { λ v. record { at = v.at; of = v.of } };
}

impl Part {
    /// The part of this number of so many, where there is one.
    pub fn new(at: u64, of: u64) -> Option<Part>
        ensures { result ≡ part_between at of }
    {
        if at >= 1 && at <= of && of <= 4096 {
            Some(Part { at, of })
        } else {
            None
        }
    }

    /// Whether what has this place, counted from 0, is in it.
    pub fn has(&self, place: usize) -> bool
        ensures { result ≡ has self.now place }
    {
        place as u64 % self.of + 1 == self.at
    }
}
