// What holds of logs as a whole.
ghost use Rattle.rvs_log.specs.Logs.{LinesDiffer, LogsReadBack};

/// Reading the log of a run gives back each of its instructions, with what its source registers
/// held: nothing is lost that coverage speaks of.
#[tactic(auto, using(crate::proofs::Logs::logs_read_back))]
pub fn logs_read_back()
    ensures { LogsReadBack }
{}

/// Executed instructions that differ in address, word or commit have different lines.
pub fn lines_differ()
    ensures { LinesDiffer }
{}
