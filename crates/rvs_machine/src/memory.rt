// The bytes of text and data.
ghost use Rattle.std.specs.Prelude.{◌≡◌, ◌≤◌, ◌<◌, ◌+◌, ◌*◌, ◌%◌, ◌^◌, length, ℕ, List, Some};
ghost use Rattle.std.specs.Prelude.{IfSome};
ghost use Rattle.rvs_insn.specs.Memory.{text_limit, data_limit};
ghost use Rattle.rvs_machine.specs.Machine.{byte_at, load_bytes, is_in_data, store_bytes, extended};
ghost use Rattle.rvs_machine.specs.Machine.{word_at, fetch};
ghost use Rattle.rvs_machine.specs.NextSteps.{IsSize};

use rvs_insn::MemoryMap;

/// The word at a place of the text.
pub(crate) fn fetch_word(memory: MemoryMap, text: &[u8], pc: u32) -> Option<u32>
    requires words { length text.now % 4 ≡ 0 }
    requires aligned { pc % 4 ≡ 0 }
    ensures { result ≡ fetch memory text.now pc }
{
    if pc < memory.text_base {
        return None;
    }
    let at = (pc - memory.text_base) as usize;
    if at < text.len() {
        Some(word_in(text, at))
    } else {
        None
    }
}

/// The word that four bytes make, the lowest first.
pub(crate) fn word_in(bytes: &[u8], at: usize) -> u32
    requires { at + 4 ≤ length bytes.now }
    ensures { result ≡ word_at bytes.now at }
{
    u32::from(bytes[at])
        + u32::from(bytes[at + 1]) * 0x100
        + u32::from(bytes[at + 2]) * 0x1_0000
        + u32::from(bytes[at + 3]) * 0x100_0000
}

/// So many bytes from an address on, or `None` where one of them isn't in memory.
#[inline(always)]
pub(crate) fn load(
    memory: MemoryMap,
    text: &[u8],
    ram: &[u8],
    size: u8,
    address: u32,
) -> Option<u32>
    requires size { IsSize size }
    requires short_text { length text.now ≤ text_limit memory }
    requires short_data { length ram.now ≤ data_limit memory }
    ensures { result ≡ load_bytes memory size text.now ram.now address }
{
    if in_data(memory, ram, size, address) {
        let at = (address - memory.data_base) as usize;
        Some(number_in(memory, ram, size, at))
    } else {
        load_bytewise(memory, text, ram, size, address)
    }
}

/// The number that so many bytes of the data make, the lowest first.
#[inline(always)]
fn number_in(memory: MemoryMap, ram: &[u8], size: u8, at: usize) -> u32
    requires size { IsSize size }
    requires short { length ram.now ≤ data_limit memory }
    requires there { at + size ≤ length ram.now }
    ensures { (text : List ℕ) → length text ≤ text_limit memory
        → load_bytes memory size text ram.now (memory.data_base + at) ≡ Some result }
{
    match size {
        1 => u32::from(ram[at]),
        2 => u32::from(ram[at]) + u32::from(ram[at + 1]) * 0x100,
        _ => word_in(ram, at),
    }
}

/// The same as `load` does, for bytes that may lie in text and data.
fn load_bytewise(memory: MemoryMap, text: &[u8], ram: &[u8], size: u8, address: u32) -> Option<u32>
    requires size { IsSize size }
    requires short_text { length text.now ≤ text_limit memory }
    requires short_data { length ram.now ≤ data_limit memory }
    ensures { result ≡ load_bytes memory size text.now ram.now address }
{
    let at = u64::from(address);
    let first = byte(memory, text, ram, at)?;
    if size == 1 {
        return Some(first);
    }
    let second = byte(memory, text, ram, at + 1)?;
    if size == 2 {
        return Some(first + second * 0x100);
    }
    let third = byte(memory, text, ram, at + 2)?;
    let fourth = byte(memory, text, ram, at + 3)?;
    Some(first + second * 0x100 + third * 0x1_0000 + fourth * 0x100_0000)
}

fn byte(memory: MemoryMap, text: &[u8], ram: &[u8], at: u64) -> Option<u32>
    requires short_text { length text.now ≤ text_limit memory }
    requires short_data { length ram.now ≤ data_limit memory }
    ensures value { result ≡ byte_at memory text.now ram.now at }
    ensures small { IfSome result (λ b. b < 256) }
{
    let text_base = u64::from(memory.text_base);
    let data_base = u64::from(memory.data_base);
    if text_base <= at && at < text_base + text.len() as u64 {
        Some(u32::from(text[(at - text_base) as usize]))
    } else if data_base <= at && at < data_base + ram.len() as u64 {
        Some(u32::from(ram[(at - data_base) as usize]))
    } else {
        None
    }
}

/// Whether so many bytes from an address on are in the data.
pub(crate) fn in_data(memory: MemoryMap, ram: &[u8], size: u8, address: u32) -> bool
    requires short_data { length ram.now ≤ data_limit memory }
    ensures { result ≡ is_in_data memory size ram.now address }
{
    let end = u64::from(memory.data_base) + ram.len() as u64;
    address >= memory.data_base && u64::from(address) + u64::from(size) <= end
}

/// Stores the lowest bytes of a word.
pub(crate) fn store(ram: &mut [u8], size: u8, at: usize, value: u32)
    requires size { IsSize size }
    requires there { at + size ≤ length ram.old }
    ensures { ram.new ≡ store_bytes size ram.old at value }
{
    ram[at] = (value % 0x100) as u8;
    if size == 1 {
        return;
    }
    ram[at + 1] = (value / 0x100 % 0x100) as u8;
    if size == 2 {
        return;
    }
    ram[at + 2] = (value / 0x1_0000 % 0x100) as u8;
    ram[at + 3] = (value / 0x100_0000 % 0x100) as u8;
}

/// The word that so many loaded bytes are, with their sign or without.
pub(crate) fn extend(is_signed: bool, size: u8, value: u32) -> u32
    requires size { IsSize size }
    requires small { value < 2 ^ (8 * size) }
    ensures { result ≡ extended is_signed size value }
{
    match (is_signed, size) {
        (true, 1) if value >= 0x80 => value + 0xffff_ff00,
        (true, 2) if value >= 0x8000 => value + 0xffff_0000,
        _ => value,
    }
}
