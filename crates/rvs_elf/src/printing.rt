// The text of a refusal.
ghost use Rattle.rvs_elf.specs.Numbers.{refusal_text};

use crate::ElfRefusal;
use rvs_base::{NoMemory, Refusal, Text};
use std::alloc::Global;

impl Refusal for ElfRefusal {
    ghost said = { refusal_text };

    fn text(&self, alloc: Global) -> Result<Text, NoMemory> {
        let number = self.number();
        let told = match self {
            ElfRefusal::BadSegment { index } => {
                let index = *index;
                format!(in alloc; "elf {number} index {index}")?
            },
            ElfRefusal::MissingSymbol { name } => format!(in alloc; "elf {number} name {name}")?,
            _ => format!(in alloc; "elf {number}")?,
        };
        Ok(Text::from(told))
    }
}
