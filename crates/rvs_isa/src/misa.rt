// The register misa.
ghost use Rattle.std.specs.Prelude.{◌≡◌};
ghost use Rattle.rvs_isa.specs.Misa.{misa_word};

use rvs_insn::IsaSpec;

/// The word that `misa` has after reset on a core of this specification: MXL 1, for 32 bits, and a
/// bit for each letter (the privileged manual, "Machine ISA Register misa").
pub fn misa_word(spec: &IsaSpec) -> u32
    ensures { result ≡ misa_word spec.now }
{
    let base: u32 = if spec.e { 1 << 4 } else { 1 << 8 };
    let multiplies: u32 = if spec.m { 1 << 12 } else { 0 };
    let atomic: u32 = if spec.a { 1 } else { 0 };
    0x4000_0000 + base + multiplies + atomic
}
