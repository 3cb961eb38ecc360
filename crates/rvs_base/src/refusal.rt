// What refusals have in common.
use crate::{NoMemory, Text};
use std::alloc::Global;

/// Why an input is refused.
pub trait Refusal: Drop {
    ghost use Rattle.std.specs.Prelude.{◌≡◌, ℕ, List, IfOk};

    /// What a fault line says behind the input's name.
    ghost said: { Self → List ℕ };

    /// The refusal as a fault line has it behind the input's name.
    ///
    /// # Errors
    ///
    /// [`NoMemory`].
    fn text(&self, alloc: Global) -> Result<Text, NoMemory>
        ensures { IfOk result (λ text. text ≡ said self.now) };
}
