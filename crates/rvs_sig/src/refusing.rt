// The texts of refusals.
ghost use Rattle.rvs_sig.specs.Printed.{refusal_text};

use crate::SigRefusal;
use rvs_base::{NoMemory, Refusal, Text};
use std::alloc::Global;

impl Refusal for SigRefusal {
    ghost said = { refusal_text };

    fn text(&self, alloc: Global) -> Result<Text, NoMemory> {
        match self {
            SigRefusal::BadLine { line } => {
                let line = *line;
                Ok(Text::from(format!(in alloc; "sig 1 line {line}")?))
            },
            SigRefusal::TooLong => Ok(Text::from(String::from_str(alloc, "sig 2")?)),
        }
    }
}
