// The text of a refusal.
ghost use Rattle.rvs_machine.specs.ImageNumbers.{refusal_text};

use crate::ImageRefusal;
use rvs_base::{NoMemory, Refusal, Text};
use std::alloc::Global;

impl Refusal for ImageRefusal {
    ghost said = { refusal_text };

    fn text(&self, alloc: Global) -> Result<Text, NoMemory> {
        let number = self.kind.number();
        let line = self.line;
        Ok(Text::from(format!(in alloc; "image {number} line {line}")?))
    }
}
