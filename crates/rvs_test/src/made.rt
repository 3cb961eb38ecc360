// What the generator makes of a label.
use rvs_base::{Items, Text};
use rvs_test_text::Claim;

/// The test of a label.
#[derive(Drop)]
pub struct Made {
    /// The text, where a point is solved.
    pub text: Option<Text>,
    /// What the text claims, in the order of the cases.
    pub claims: Items<Claim>,
    /// The places of the points that no choice hits.
    pub unsolved: Items<usize>,
    /// How many instructions the run of the test takes at most.
    pub steps: u64,
}
