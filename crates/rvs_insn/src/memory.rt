// Where the memory of a core lies.
ghost use Rattle.std.specs.Prelude.{◌≡◌, ◌≤◌, ◌^◌};
ghost use Rattle.rvs_insn.specs.Memory.{if_room, room, text_limit};
ghost use Rattle.rvs_insn.specs.Memory.{data_limit, HasRoom};

use std::marker::Model;

/// Where the text and the data of a program begin. Contracts see it as the record of its fields.
///
/// By an invariant of the type both are multiples of 4,096, and they differ.
#[derive(Clone, Copy)]
pub struct MemoryMap {
    /// The first address of the text.
    pub text_base: u32,
    /// The first address of the data.
    pub data_base: u32,
}

impl Model for MemoryMap {
    ghost use Rattle.rvs_insn.specs.Memory.{Memory, HasRoom};

    ghost Value = { Memory };

    ghost view = { λ m. record { text_base = m.text_base; data_base = m.data_base } };

    ghost invariant = { λ m.
        HasRoom (record { text_base = m.text_base; data_base = m.data_base }) };

    ghost inverse = { λ m. record { text_base = m.text_base; data_base = m.data_base } };
}

/// The memory of a core that doesn't say where it lies.
pub const USUAL_MEMORY: MemoryMap = MemoryMap {
    text_base: 0x8000_0000,
    data_base: 0x8100_0000,
};

impl MemoryMap {
    /// The memory that begins at these addresses, or `None` where they aren't two multiples of
    /// 4,096.
    pub fn new(text_base: u32, data_base: u32) -> Option<MemoryMap>
        ensures { result ≡ if_room (record { text_base = text_base; data_base = data_base }) }
    {
        if text_base % 4096 == 0 && data_base % 4096 == 0 && text_base != data_base {
            Some(MemoryMap {
                text_base,
                data_base,
            })
        } else {
            None
        }
    }

    /// How many bytes the text may have.
    pub fn text_limit(&self) -> u32
        ensures value { result ≡ text_limit self.now }
        ensures room { HasRoom self.now }
    {
        room(self.text_base, self.data_base).min(1 << 24) as u32
    }

    /// How many bytes the data may have.
    pub fn data_limit(&self) -> u32
        ensures value { result ≡ data_limit self.now }
        ensures room { HasRoom self.now }
    {
        room(self.data_base, self.text_base).min(1 << 20) as u32
    }
}

/// How many bytes lie from an address up to another that isn't before it, else up to 2^32.
fn room(from: u32, other: u32) -> u64
    ensures { result ≡ room from other }
{
    if from <= other {
        u64::from(other - from)
    } else {
        0x1_0000_0000 - u64::from(from)
    }
}
