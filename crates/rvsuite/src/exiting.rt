// The exit status of the program.
ghost use Rattle.std.specs.Prelude.{IfOk, OnErr};
ghost use Rattle.rvs_words.specs.Words.{texts};
ghost use Rattle.rvsuite.specs.Exits.{Exits, ExitsUnread, outside};

use rvs_base::{Host, NoMemory, Sink};
use rvs_plan::{Stop, conclude};
use rvs_suite::run_suite;
use std::alloc::Global;

/// Does what the words ask for, or tells that memory is wanting for the words themselves, and
/// answers with the exit status of the process.
pub fn exit_status<H: Host, O: Sink, E: Sink>(
    alloc: Global,
    words: Result<Vec<String>, NoMemory>,
    host: &mut H,
    out: &mut O,
    err: &mut E,
) -> u8
    ensures taken { IfOk words (λ words. Exits (texts words.items)
        (outside (H.state host.old) (O.state out.old) (E.state err.old))
        (outside (H.state host.new) (O.state out.new) (E.state err.new)) result) }
    ensures unread { OnErr words (ExitsUnread
        (outside (H.state host.old) (O.state out.old) (E.state err.old))
        (outside (H.state host.new) (O.state out.new) (E.state err.new)) result) }
{
    match words {
        Ok(words) => run_suite(alloc, words.as_slice(), host, out, err).code(),
        Err(_) => conclude(Err(Stop::NoMemory), err).code(),
    }
}
