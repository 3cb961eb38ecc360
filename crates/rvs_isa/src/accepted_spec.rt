// What an accepted ISA specification says.
use rvs_base::{Items, Text};
use rvs_insn::IsaSpec;

/// An accepted ISA specification.
#[derive(Drop)]
pub struct AcceptedSpec {
    /// What the core has.
    pub spec: IsaSpec,
    /// Whether the file says where memory lies.
    pub tells_memory: bool,
    /// The paths of the entries that no check reads, in the file's order.
    pub unread: Items<Text>,
}
