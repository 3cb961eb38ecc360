// A log in a file.
ghost use Rattle.std.specs.Prelude.{◌≡◌, ◌≤◌, ◌+◌, ◌-◌, ◌^◌, IfErr, OnOk, OnErr, length, take};
ghost use Rattle.std.specs.Prelude.{true, false};
ghost use Rattle.rvs_base.specs.File.{ReadsAtMost};
ghost use Rattle.rvs_base.specs.Host.{ReadsOnly};
ghost use Rattle.rvs_log.specs.Feeds.{FeedCause, FeedsFile, FeedsFront, piece_limit};
ghost use Rattle.rvs_log.specs.Lines.{log_limit};
ghost use Rattle.rvs_log.specs.Progress.{HasTold, is_untold, lines_of_file};

use crate::consumer::Consumer;
use crate::fault::LogFault;
use crate::progress::tell_read;
use crate::reader::Reader;
use rvs_base::{Host, Sink};
use std::alloc::Global;

/// The longest piece that is read at once. It stands on the stack, so it is kept small.
const PIECE: usize = 16_384;

/// The first bytes of a buffer.
fn front_of(buffer: &[u8], count: usize) -> &[u8]
    requires { count ≤ length buffer.now }
    ensures { result.now ≡ take count buffer.now }
{
    &buffer[..count]
}

/// Feeds the bytes of a file to its end, in one opening and in pieces of at most 16 KiB, and takes
/// no more of it than may be fed and the piece that passes that; it doesn't finish the log. Where
/// `progress` is true, a line for each 1,024 MiB is put to `err` as soon as they are fed. It takes
/// no memory but for these lines.
///
/// # Errors
///
/// [`LogFault`]; a front of the file was fed.
pub fn feed_file<H: Host, E: Sink, C: Consumer>(
    alloc: Global,
    host: &mut H,
    err: &mut E,
    progress: bool,
    name: &str,
    reader: &mut Reader<C>,
) -> Result<(), LogFault>
    ensures reads_only { ReadsOnly (H.state host.old) (H.state host.new) }
    ensures whole { OnOk result
        (FeedsFile C.step name.now (H.state host.old) reader.old reader.new) }
    ensures unfaulted { OnOk result
        ((H.state host.new).read_faults ≡ (H.state host.old).read_faults) }
    ensures front { OnErr result
        (FeedsFront C.step name.now (H.state host.old) reader.old reader.new) }
    ensures cause { IfErr result
        (FeedCause name.now (H.state host.old) (H.state host.new) reader.old reader.new) }
    ensures at_most { ReadsAtMost 1 (log_limit - reader.old.fed + piece_limit)
        (H.state host.old) (H.state host.new) }
    ensures told { OnOk result (HasTold progress (λ files. lines_of_file name.now (files name.now))
        (H.state host.old) (E.state err.old) (E.state err.new) true false) }
    ensures untold { IfErr result (λ fault. HasTold progress
        (λ files. lines_of_file name.now (files name.now))
        (H.state host.old) (E.state err.old) (E.state err.new) false (is_untold fault)) }
{
    host.open_read(name)?;
    let mut buffer = [0u8; PIECE];
    let mut read = 0;
    'pieces: loop {
        let count = host.take(&mut buffer)?;
        if count == 0 {
            return Ok(());
        }
        reader.feed(front_of(&buffer, count))?;
        read = tell_read(alloc, err, progress, name, read, count)?;
    }
}
