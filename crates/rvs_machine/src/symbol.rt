// Symbols.
use rvs_base::Text;

/// A symbol of a program, and its address.
#[derive(Drop)]
pub struct Symbol {
    pub name: Text,
    pub at: u32,
}
