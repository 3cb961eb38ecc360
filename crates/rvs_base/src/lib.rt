//! What most crates of the suite stand on: owned texts and lists, the outside, files, lines and
//! numbers, and why an input is refused.
#![tactic(auto)]

mod asked;
mod digits;
mod fault;
mod file;
mod host;
mod items;
mod letting;
mod lines;
mod memory_refusal;
mod memory_sink;
mod number;
mod refusal;
mod sink;
mod text;

pub use asked::{DemoSize, Window};
pub use digits::{natural_below, number_below, short_number};
pub use fault::Fault;
pub use file::{FileRefusal, read_file};
pub use host::{DeviceRun, Failed, Host, OpenFault};
pub use items::{Bytes, Items};
pub use letting::{beside, release};
pub use lines::{cut, first_line, without_return};
pub use memory_refusal::NoMemory;
pub use memory_sink::MemorySink;
pub use number::{decimal, hex_text, hex_word, signed32, unsigned32};
pub use refusal::Refusal;
pub use sink::{Sink, put_all};
pub use text::Text;
