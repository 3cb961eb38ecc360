// The text of a refusal.
ghost use Rattle.rvs_yaml.specs.Refusing.{refusal_text, refusal_view};

use crate::refusal::YamlRefusal;
use rvs_base::{NoMemory, Refusal, Text};
use std::alloc::Global;

impl Refusal for YamlRefusal {
    ghost said = { λ refusal. refusal_text (refusal_view refusal) };

    /// `yaml`, the number of the kind, and the line.
    fn text(&self, alloc: Global) -> Result<Text, NoMemory> {
        let number = self.kind.number();
        let line = self.line;
        Ok(Text::from(format!(in alloc; "yaml {number} line {line}")?))
    }
}
