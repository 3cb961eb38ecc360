// The words of the registers while a log is read.
ghost use Rattle.std.specs.Prelude.{◌≡◌, ◌<◌, slice_index};
ghost use Rattle.rvs_log.specs.Registers.{zeros};
ghost use Rattle.rvs_machine.specs.Traces.{applied};

use rvs_machine::Commit;
use std::marker::Model;

/// The 32 registers; x0 stays 0.
#[derive(Drop)]
pub struct Registers {
    words: [u32; 32],
}

impl Model for Registers {
    ghost use Rattle.std.specs.Prelude.{◌≡◌, List, ℕ, slice_index};

    ghost Value = { List ℕ };

    ghost view = { λ r. r.words };

    ghost invariant = { λ r. slice_index r.words 0 ≡ 0 };
}

impl Registers {
    /// All registers are 0.
    #[tactic(auto, unfolding(crate::specs::Registers::zeros))]
    pub fn new() -> Self
        ensures { result ≡ zeros }
    {
        Registers { words: [0; 32] }
    }

    /// The word of a register, from 0 to 31.
    pub fn get(&self, r: u8) -> u32
        requires { r < 32 }
        ensures value { result ≡ slice_index self.now r }
        ensures zero { r ≡ 0 → result ≡ 0 }
    {
        self.words[usize::from(r)]
    }

    /// Writes a word, unless to x0.
    pub fn apply(&mut self, c: Commit)
        ensures { self.new ≡ applied self.old c }
    {
        if c.reg != 0 {
            self.words[usize::from(c.reg)] = c.value;
        }
    }
}
