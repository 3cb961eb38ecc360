//! Checks a riscv-config ISA specification, and prints what it says of the core.
#![tactic(auto)]

mod accepted_spec;
mod checks;
mod entry;
mod isa_text;
mod laws;
mod misa;
mod print;
mod refusal;
mod unread;
mod value;

pub use accepted_spec::AcceptedSpec;
pub use checks::check;
pub use laws::{
    accepted_have_room, canonical_texts_are_accepted, isa_texts_are_read_as_spelled,
    unread_paths_are_those_that_no_check_reads,
};
pub use misa::misa_word;
pub use print::print_checked;
pub use refusal::{IsaKind, IsaRefusal};
