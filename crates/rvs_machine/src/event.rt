// What a step does, and how a run ends.
ghost use Rattle.std.specs.Prelude.{◌≡◌};
ghost use Rattle.rvs_machine.specs.TrapNumbers.{trap_number};

use rvs_base::Items;
use std::marker::Model;

/// A word written to a register. A step writes no other than x1 to x31; a line of a log may name
/// x0.
#[derive(Debug, Clone, Copy)]
pub struct Commit {
    /// The register, from 0 to 31.
    pub reg: u8,
    pub value: u32,
}

impl Model for Commit {
    ghost use Rattle.std.specs.Prelude.{◌<◌};
    ghost use Rattle.rvs_machine.specs.Written.{Write};

    ghost Value = { Write };

    ghost view = { λ c. record { reg = c.reg; value = c.value } };

    ghost invariant = { λ c. c.reg < 32 };

    ghost inverse = { λ c. record { reg = c.reg; value = c.value } };
}

/// An executed instruction.
#[derive(Clone, Copy)]
pub struct Executed {
    /// Its address.
    pub pc: u32,
    /// Its word.
    pub word: u32,
    /// The word of `rs1` before it, or 0 where it has no `rs1`.
    pub v1: u32,
    /// The word of `rs2` before it, or 0 where it has no `rs2`.
    pub v2: u32,
    /// What it wrote to `rd`, where it has one that isn't x0.
    pub commit: Option<Commit>,
}

/// Why an instruction wasn't executed.
#[derive(Clone, Copy)]
pub enum TrapKind {
    /// The word is no instruction that the core has.
    Illegal { word: u32 },
    /// A jump or a taken branch to an address that is no multiple of 4.
    MisalignedTarget { target: u32 },
    /// A load or store at an address that is no multiple of its size.
    MisalignedAccess { addr: u32 },
    /// A fetch outside the text, a load outside text and data, or a store outside the data.
    AccessFault { addr: u32 },
    /// `ecall`.
    Ecall,
    /// `ebreak`.
    Ebreak,
}

impl TrapKind {
    /// The number that stands for the kind in fault lines, from 1 to 6 in the order above.
    pub fn number(self) -> u8
        ensures { result ≡ trap_number self }
    {
        match self {
            TrapKind::Illegal { .. } => 1,
            TrapKind::MisalignedTarget { .. } => 2,
            TrapKind::MisalignedAccess { .. } => 3,
            TrapKind::AccessFault { .. } => 4,
            TrapKind::Ecall => 5,
            TrapKind::Ebreak => 6,
        }
    }
}

/// An instruction that wasn't executed: its address and the cause. Nothing was changed.
#[derive(Clone, Copy)]
pub struct Trap {
    pub pc: u32,
    pub kind: TrapKind,
}

/// What one step did.
#[derive(Clone, Copy)]
pub enum Event {
    /// An instruction was executed.
    Ran(Executed),
    /// A word of 1 was stored to `tohost` by this instruction.
    Halted(Executed),
    /// No instruction was executed, and nothing was changed.
    Trapped(Trap),
}

/// How a run ended.
#[derive(Clone, Copy)]
pub enum End {
    /// At the store of the word 1 to `tohost`, which was executed.
    Halted,
    /// At an instruction that wasn't executed.
    Trapped(Trap),
    /// After as many instructions as were allowed.
    StepLimit,
    /// The trace couldn't grow.
    NoMemory,
}

/// Executed instructions in their order.
pub type Trace = Items<Executed>;
