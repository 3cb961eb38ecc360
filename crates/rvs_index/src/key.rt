// What a list of the index is for.
/// Which points a list has.
#[derive(Clone, Copy)]
pub(crate) enum ListKey {
    /// Those of a bucket that an instruction of the mnemonic of this number may hit.
    Insns { mnemonic: usize, bucket: usize },
    /// Those of all buckets, and cross points, that an instruction of the mnemonic of this number
    /// may hit.
    Any { mnemonic: usize },
    /// The cross points of so many places of which an instruction of the mnemonic of this number
    /// may be the first.
    Windows { places: usize, mnemonic: usize },
}
