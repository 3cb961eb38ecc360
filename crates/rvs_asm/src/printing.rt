// The text of a refusal.
ghost use Rattle.std.specs.Prelude.{◌≡◌, IfOk};
ghost use Rattle.rvs_asm.specs.KindNumbers.{detail, refusal_text};

use crate::{AsmKind, AsmRefusal};
use rvs_base::{NoMemory, Refusal, Text};
use std::alloc::Global;

impl Refusal for AsmRefusal {
    ghost said = { refusal_text };

    fn text(&self, alloc: Global) -> Result<Text, NoMemory> {
        let number = self.kind.number();
        let line = self.line;
        let detail = detail(alloc, &self.kind)?;
        Ok(Text::from(format!(in alloc; "asm {number} line {line}{detail}")?))
    }
}

fn detail(alloc: Global, kind: &AsmKind) -> Result<Text, NoMemory>
    ensures { IfOk result (λ text. text ≡ detail kind.now) }
{
    match kind {
        AsmKind::OutOfRange { value } => {
            let value = *value;
            Ok(Text::from(format!(in alloc; " value {value}")?))
        },
        AsmKind::MissingSymbol { name } => Ok(Text::from(format!(in alloc; " name {name}")?)),
        _ => Ok(Text::new(alloc)),
    }
}
