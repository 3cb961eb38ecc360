// What is found of a test.
use rvs_base::Items;
use rvs_page::State;

/// What is found of a test.
#[derive(Drop)]
pub struct Found {
    /// How it ended, or why nothing is known of it.
    pub state: State,
    /// The device's words, where they are as many as the reference's and not the same.
    pub device: Items<u32>,
    /// The reference's words, where the device's are here.
    pub reference: Items<u32>,
}
