// Labels that were written out.
ghost use Rattle.std.specs.Prelude.{◌≤◌};
ghost use Rattle.rvs_points.specs.Limits.{most_pairs};

use rvs_base::Text;

/// Labels as they are written out: their text, how many they are, and the sum of their points times
/// mnemonics.
#[derive(Drop)]
pub struct Written {
    /// The text.
    pub text: Text,
    /// How many labels there are.
    pub count: usize,
    /// The sum.
    pub total: u128,
    ghost few: { total ≤ most_pairs },
}
