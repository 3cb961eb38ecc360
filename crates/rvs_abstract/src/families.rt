// Which families are read.

/// How much of a file's families is read.
#[derive(Clone, Copy)]
pub enum Families {
    /// Walking bits, alternate bits and edge values, with sizes that are written as numbers or
    /// `xlen`; the other families that are known by name are skipped.
    Stated,
    /// Special values (`sp_dataset`) as well, and the size `ceil(log(xlen, 2))` everywhere; a
    /// family that is filled at random is skipped by its name.
    All,
}
