// How much coverage groups may hold.

/// The most labels of a text of groups.
pub(crate) const MOST_LABELS: usize = 256;

/// The most points of a label.
pub(crate) const MOST_POINTS: usize = 2_048;

/// The most pairs of a point and a mnemonic of its label, over all labels.
pub(crate) const MOST_PAIRS: u128 = 65_536;
