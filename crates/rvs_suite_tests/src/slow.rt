// A run with an output that takes one byte at a time.
use crate::runs::status_of;
use crate::stage::host_of;
use rvs_base::{Failed, Items, MemorySink, Sink, release};
use rvs_memory::MemoryHost;
use std::alloc::Global;
use std::test::Fail;

#[derive(Drop)]
struct Trickle {
    sink: MemorySink,
}

impl Sink for Trickle {
    ghost use Rattle.rvs_base.specs.Memory.{put_to};

    ghost state = { λ trickle. put_to trickle.sink };

    fn put(&mut self, piece: &[u8]) -> Result<usize, Failed> {
        self.sink.put(&piece[..1])
    }
}

/// Runs the words on a host, and adds the output and the status.
fn tell_slow(
    alloc: Global,
    words: &str,
    host: &mut MemoryHost,
    out: &mut Trickle,
    report: &mut String,
) -> Result<(), Fail> {
    let mut err = MemorySink::new(Items::new(alloc));
    let status = status_of(alloc, words, host, out, &mut err)?;
    let text = str::from_utf8(out.sink.bytes()).map_err(|_| "no text")?;
    write!(report, "{text}[{status:?}]\n")?;
    Ok(())
}

/// Adds the output of a scene's run, and the status.
pub fn slow(alloc: Global, scene: &str, words: &str, report: &mut String) -> Result<(), Fail> {
    let mut host = host_of(alloc, scene, None)?;
    let sink = MemorySink::new(Items::new(alloc));
    let mut out = Trickle { sink };
    let told = tell_slow(alloc, words, &mut host, &mut out, report);
    release(host);
    release(out);
    told
}
