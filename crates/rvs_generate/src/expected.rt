// The words that a test leaves on the reference machine.
ghost use Rattle.std.specs.Prelude.{Ok};
ghost use Rattle.rvs_reference.specs.TestRun.{Accepts, NamesText};
ghost use Rattle.rvs_generate.specs.Tests.{IsRunnable, reference_words};

use crate::gathering::Test;
use rvs_base::{Items, Text};
use rvs_insn::IsaSpec;
use rvs_plan::Stop;
use rvs_reference::run_bytes;
use std::alloc::Global;

/// The words that a test leaves on the reference machine, where its file has this name.
///
/// # Errors
///
/// [`Stop::NoMemory`].
pub fn reference_of(
    alloc: Global,
    isa: IsaSpec,
    path: &Text,
    test: &Test,
) -> Result<Items<u32>, Stop>
    requires runs { IsRunnable isa test.now }
    requires text { NamesText path.now }
    ensures { Accepts (Ok (reference_words isa test.now)) result }
{
    let run = run_bytes(
        alloc,
        None,
        isa,
        path.as_str(),
        test.text.as_str().as_bytes(),
    )?;
    Ok(run.words)
}
