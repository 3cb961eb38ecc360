// What symbols mark.

/// The address that a symbol marks, and whether its line stands in the text.
#[derive(Clone, Copy)]
pub struct Mark {
    pub at: u32,
    pub in_text: bool,
}
