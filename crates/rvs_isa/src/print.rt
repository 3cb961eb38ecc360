// The texts of an accepted specification and of a refusal.
ghost use Rattle.std.specs.Prelude.{◌≡◌, ◌++◌, IfOk, OnOk};
ghost use Rattle.rvs_isa.specs.Print.{checked_text, core_lines, refusal_text, unread_line};
ghost use Rattle.rvs_isa.specs.Print.{words_text, memory_lines, said_lines};

use crate::accepted_spec::AcceptedSpec;
use crate::misa::misa_word;
use crate::refusal::{IsaKind, IsaRefusal};
use rvs_base::{NoMemory, Refusal, Text, hex_text};
use rvs_insn::{IsaSpec, MemoryMap, isa_text};
use std::alloc::Global;

/// What the core has, line by line, and a line for each entry that no check reads.
///
/// # Errors
///
/// [`NoMemory`].
pub fn print_checked(alloc: Global, c: &AcceptedSpec) -> Result<Text, NoMemory>
    ensures { IfOk result (λ text. text ≡ checked_text c.now) }
{
    let mut text = said_lines(alloc, c)?;
    for path in c.unread.as_slice() {
        push_unread_line(&mut text, path.as_str())?;
    }
    Ok(text)
}

fn said_lines(alloc: Global, c: &AcceptedSpec) -> Result<Text, NoMemory>
    ensures { IfOk result (λ text. text ≡ said_lines c.now) }
{
    let core = core_lines(alloc, &c.spec)?;
    let memory = memory_lines(alloc, c.tells_memory, c.spec.memory)?;
    Ok(Text::from(format!(in alloc; "{core}{memory}")?))
}

fn memory_lines(alloc: Global, tells: bool, memory: MemoryMap) -> Result<Text, NoMemory>
    ensures { IfOk result (λ text. text ≡ memory_lines tells memory) }
{
    if !tells {
        return Ok(Text::new(alloc));
    }
    let text = hex_text(alloc, memory.text_base)?;
    let data = hex_text(alloc, memory.data_base)?;
    Ok(Text::from(format!(in alloc; "text 0x{text}\ndata 0x{data}\n")?))
}

fn push_unread_line(text: &mut Text, path: &str) -> Result<(), NoMemory>
    ensures { OnOk result (text.new ≡ text.old ++ unread_line path.now) }
{
    text.push_str("unread ")?;
    text.push_str(path)?;
    text.push_str("\n")
}

fn core_lines(alloc: Global, spec: &IsaSpec) -> Result<Text, NoMemory>
    ensures { IfOk result (λ text. text ≡ core_lines spec.now) }
{
    let isa = isa_text(alloc, spec)?;
    let misaligned = spec.misaligned;
    let bits = spec.address_bits;
    let misa = hex_text(alloc, misa_word(spec))?;
    let lines = format!(in alloc;
        "isa {isa}\nmisaligned {misaligned}\naddress_bits {bits}\nmisa 0x{misa}\n"
    )?;
    Ok(Text::from(lines))
}

impl Refusal for IsaRefusal {
    ghost said = { refusal_text };

    /// `isa`, the number of the kind, the path, and both words where the reset value of `misa`
    /// disagrees.
    fn text(&self, alloc: Global) -> Result<Text, NoMemory> {
        let number = self.kind.number();
        let path = self.path.as_str();
        let words = words_text(alloc, self.kind)?;
        Ok(Text::from(format!(in alloc; "isa {number} {path}{words}")?))
    }
}

fn words_text(alloc: Global, kind: IsaKind) -> Result<Text, NoMemory>
    ensures { IfOk result (λ text. text ≡ words_text kind) }
{
    let IsaKind::MisaDisagrees { stated, expected } = kind else {
        return Ok(Text::new(alloc));
    };
    let stated = hex_text(alloc, stated)?;
    let expected = hex_text(alloc, expected)?;
    Ok(Text::from(format!(in alloc; " stated 0x{stated} expected 0x{expected}")?))
}
