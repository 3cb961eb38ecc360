// Programs in memory.
ghost use Rattle.std.specs.Prelude.{◌≡◌, ◌≤◌};
ghost use Rattle.rvs_insn.specs.Memory.{data_limit};
ghost use Rattle.rvs_machine.specs.Image.{ImageValue, is_text_length, is_tohost, is_signature};
ghost use Rattle.rvs_machine.specs.Image.{if_image};

use crate::symbol::Symbol;
use rvs_base::{Bytes, Items};
use rvs_insn::MemoryMap;
use std::marker::Model;

/// A program in memory. Contracts see it as the record of its fields.
///
/// By an invariant of the type, the text has a whole number of words, text and data have no more
/// bytes than their regions, the word at `tohost` lies in the data, and so does what lies from
/// `sig_begin` to `sig_end`; all three are multiples of 4.
#[derive(Drop)]
pub struct Image {
    /// Where text and data begin.
    pub memory: MemoryMap,
    /// The bytes of the text, which are read and executed.
    pub text: Bytes,
    /// The bytes of the data, which are read and written.
    pub data_bytes: Bytes,
    /// Where a stored word of 1 halts a run.
    pub tohost: u32,
    /// Where the signature begins.
    pub sig_begin: u32,
    /// Where the signature ends.
    pub sig_end: u32,
    /// The symbols in the order of their definitions.
    pub symbols: Items<Symbol>,
}

impl Model for Image {
    ghost use Rattle.rvs_machine.specs.Image.{ImageValue, IsImage};

    ghost Value = { ImageValue };

    ghost view = { λ i. record {
      memory = i.memory;
      text = i.text;
      data_bytes = i.data_bytes;
      tohost = i.tohost;
      sig_begin = i.sig_begin;
      sig_end = i.sig_end;
      symbols = i.symbols;
    } };

    ghost invariant = { λ i. IsImage (record {
      memory = i.memory;
      text = i.text;
      data_bytes = i.data_bytes;
      tohost = i.tohost;
      sig_begin = i.sig_begin;
      sig_end = i.sig_end;
      symbols = i.symbols;
    }) };
}

impl Image {
    /// The image of these parts, or `None` where they break its invariant.
    pub fn new(
        memory: MemoryMap,
        text: Bytes,
        data_bytes: Bytes,
        tohost: u32,
        sig_begin: u32,
        sig_end: u32,
        symbols: Items<Symbol>,
    ) -> Option<Image>
        ensures { result ≡ if_image (record {
          memory = memory;
          text = text;
          data_bytes = data_bytes;
          tohost = tohost;
          sig_begin = sig_begin;
          sig_end = sig_end;
          symbols = symbols;
        }) }
    {
        let text_len = text.as_slice().len();
        let data_len = data_bytes.as_slice().len();
        if is_text_length(memory, text_len)
            && data_len <= memory.data_limit() as usize
            && is_tohost(memory, data_len, tohost)
            && is_signature(memory, data_len, sig_begin, sig_end)
        {
            Some(Image {
                memory,
                text,
                data_bytes,
                tohost,
                sig_begin,
                sig_end,
                symbols,
            })
        } else {
            None
        }
    }
}

fn is_text_length(memory: MemoryMap, length: usize) -> bool
    ensures { result ≡ is_text_length memory length }
{
    length % 4 == 0 && length <= memory.text_limit() as usize
}

fn is_tohost(memory: MemoryMap, size: usize, at: u32) -> bool
    requires { size ≤ data_limit memory }
    ensures { result ≡ is_tohost memory size at }
{
    let first = memory.data_base;
    at % 4 == 0 && at >= first && u64::from(at) + 4 <= u64::from(first) + size as u64
}

fn is_signature(memory: MemoryMap, size: usize, first: u32, last: u32) -> bool
    requires { size ≤ data_limit memory }
    ensures { result ≡ is_signature memory size first last }
{
    let base = memory.data_base;
    first % 4 == 0
        && last % 4 == 0
        && first >= base
        && first <= last
        && u64::from(last) <= u64::from(base) + size as u64
        && u64::from(last) < 0x1_0000_0000
}
