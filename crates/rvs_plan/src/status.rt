// How a run ends.
ghost use Rattle.std.specs.Prelude.{◌≡◌};
ghost use Rattle.rvs_plan.specs.Codes.{code_of};

/// What the program answers.
#[derive(Debug, Drop, Clone, Copy, PartialEq, Eq)]
pub enum Status {
    /// All that was asked for was done.
    Done,
    /// All was done, and a verdict was no pass.
    NotPassed,
    /// The words are no command.
    Usage,
    /// An input was refused.
    Refused,
    /// A file or a device failed, or an input file isn't there.
    HostFault,
    /// A sink failed.
    SinkFault,
    /// The allocator refused.
    NoMemory,
}

impl Status {
    /// The exit status of the process, 0 to 6 in the order of the variants.
    pub fn code(self) -> u8
        ensures { result ≡ code_of self }
    {
        self as u8
    }
}

/// How a command ends that isn't stopped.
#[derive(Drop, Clone, Copy)]
pub enum Finish {
    /// There is no verdict but a pass.
    Done,
    /// A verdict is no pass.
    NotPassed,
}
