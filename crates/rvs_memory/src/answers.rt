// What the device runs of a host in memory answer.
use rvs_base::Bytes;

/// What a run of a device leaves in its signature file.
#[derive(Drop)]
pub enum Leaves {
    /// What it held before.
    Untouched,
    /// Nothing: there is no such file.
    Absent,
    /// These bytes.
    Holds(Bytes),
}

/// What a run of a device answers.
#[derive(Drop)]
pub struct Answer {
    /// The exit status, or -1 where a signal ends the program.
    pub status: i32,
    /// What it leaves in its signature file.
    pub leaves: Leaves,
}
