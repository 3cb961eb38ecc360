// What a page shows.
use rvs_base::{Bytes, Items, Text};

/// A core.
#[derive(Drop)]
pub struct Core {
    /// The text of its extensions.
    pub isa: Text,
    /// Whether it loads and stores data that aren't aligned.
    pub misaligned: bool,
    /// How many bits an address has.
    pub address_bits: u8,
    /// The reset value of `misa`.
    pub misa: u32,
}

/// What the files of a label's test say of it.
#[derive(Drop, Clone, Copy)]
pub enum State {
    /// The label has no test, since no choice hits a point of it.
    NoTest,
    /// A file of it isn't there.
    NotRun,
    /// A file is of another test.
    OtherTest,
    /// The signature spells the reference's words.
    Pass {
        /// How many words that are.
        words: usize,
    },
    /// There is no signature, or it is empty while the reference has words.
    NoSignature,
    /// The signature is too long.
    TooLong,
    /// A line of the signature is no word.
    BadLine {
        /// The first such line, counted from 1.
        line: u32,
    },
    /// The signature spells another number of words than the reference has.
    Lengths {
        /// How many words the signature spells.
        device: usize,
        /// How many words the reference has.
        reference: usize,
    },
    /// The signature spells as many words, and not the same.
    Differs {
        /// The first place at which they differ, counted from 0.
        at: usize,
        /// The device's word there.
        left: u32,
        /// The reference's word there.
        right: u32,
        /// How many words differ.
        differing: usize,
        /// How many words the reference has.
        words: usize,
    },
}

/// A coverage point.
#[derive(Drop)]
pub struct Point {
    /// The case that hits it, where a choice does.
    pub case: Option<usize>,
    /// What it is a point of.
    pub kind: Text,
    /// Its key.
    pub key: Text,
    /// How often the logs hit it.
    pub hits: u64,
    /// Whether a word of its case differs.
    pub differs: bool,
}

/// An entry that isn't counted.
#[derive(Drop)]
pub struct Skipped {
    /// Its node.
    pub node: Text,
    /// Its key.
    pub key: Text,
}

/// A case of which a word differs.
#[derive(Drop)]
pub struct Case {
    /// Its number.
    pub number: usize,
    /// What its point is a point of.
    pub kind: Text,
    /// The key of its point.
    pub key: Text,
    /// Its instructions, as they stand in the test.
    pub code: Bytes,
    /// Both words of the core.
    pub core: (u32, u32),
    /// Both words of the reference.
    pub reference: (u32, u32),
}

/// A label.
#[derive(Drop)]
pub struct Label {
    /// Its name.
    pub name: Text,
    /// Whether it holds for the core.
    pub selected: bool,
    /// What is found of its test.
    pub state: State,
    /// The cases of which a word differs, in order.
    pub cases: Items<Case>,
    /// Its points, in order.
    pub points: Items<Point>,
    /// Its entries that aren't counted.
    pub skipped: Items<Skipped>,
}

/// A page.
#[derive(Drop)]
pub struct Page {
    /// The name of the device.
    pub device: Text,
    pub core: Core,
    /// How many instructions the logs have, where logs are given.
    pub instructions: Option<u64>,
    /// The labels, in order.
    pub labels: Items<Label>,
}

/// The verdict on all tests.
#[derive(Drop, Clone, Copy)]
pub enum Verdict {
    /// Each test was run and passes.
    Pass,
    /// None fails, and one or more weren't run.
    Incomplete,
    /// One or more fail.
    Fail,
}
