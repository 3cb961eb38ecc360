//! What commands read, each file checked, and how they put what comes of it.
#![tactic(auto)]

mod database_file;
mod device_file;
mod group_files;
mod isa_file;
mod parting;
mod printing;
mod tree_file;

pub use database_file::read_database_file;
pub use device_file::read_device_file;
pub use group_files::{GROUPS_NAME, Inputs, read_inputs, read_joined, release_inputs};
pub use isa_file::read_isa;
pub use parting::{kept_labels, read_marked};
pub use printing::print_text;
pub use tree_file::tree_in;
