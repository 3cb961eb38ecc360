// Runs over real files and processes.
use rvs_base::{Host, Items, MemorySink, Sink, put_all, read_file};
use rvs_plan::Status;
use rvs_real::{RealHost, RealSink};
use rvs_suite::run_suite;
use std::alloc::Global;
use std::fs::{self, File};
use std::io::{self, Write};
use std::test::Fail;

/// Runs words that have one space between them.
fn run<O: Sink, E: Sink>(
    alloc: Global,
    words: &str,
    host: &mut RealHost,
    out: &mut O,
    err: &mut E,
) -> Result<Status, Fail> {
    let mut list = Vec::new(alloc);
    for word in words.split(' ') {
        list.push(String::from_str(alloc, word)?)?;
    }
    Ok(run_suite(alloc, list.as_slice(), host, out, err))
}

const RUN: &str = "rvsuite run --isa i.yaml --cgf add.cgf --device d.yaml --work .";

/// The command of a device, the status, and how the output ends: where a signal ends a device, its
/// verdict has the status -1.
const DEVICES: [(&str, Status, &str); 3] = [
    (
        "name: d\ncommand: [sh, -c, 'exit 3']\n",
        Status::NotPassed,
        "FAIL add no signature, status 3\ntotal 1 tests, 0 pass, 1 fail\n",
    ),
    (
        "name: d\ncommand: [sh, -c, 'kill -9 $$']\n",
        Status::NotPassed,
        "FAIL add no signature, status -1\ntotal 1 tests, 0 pass, 1 fail\n",
    ),
    (
        "name: d\ncommand: [/no/such/program]\n",
        Status::HostFault,
        "",
    ),
];

/// Bytes that are no text.
const BYTES: &[u8] = b"\x00\xff\r\n\x80";

/// Words on files that the system doesn't give or take: a file that isn't there, a folder in place
/// of a file, and a file in a folder that isn't there.
const FAULTS: [(&str, &str); 3] = [
    (
        "rvsuite validate --isa absent.yaml",
        "rvsuite: no file absent.yaml\n",
    ),
    ("rvsuite validate --isa .", "rvsuite: cannot read .\n"),
    (
        "rvsuite generate --isa i.yaml --cgf add.cgf --work absent",
        "rvsuite: cannot write absent/add.S\n",
    ),
];

/// A file that takes three bytes at most at a call.
#[derive(Drop)]
struct Narrow(File);

impl Write for Narrow {
    fn write(&mut self, buf: &[u8]) -> io::Result<usize> {
        let count = buf.len().min(3);
        self.0.write(&buf[..count])
    }

    fn flush(&mut self) -> io::Result<()> {
        self.0.flush()
    }
}

fn write_inputs(rt: &HostRuntime) -> Result<(), Fail> {
    fs::write(rt, "i.yaml", "hart_ids: [0]\nhart0:\n  ISA: RV32IM\n")?;
    fs::write(rt, "add.cgf", "add:\n  mnemonics:\n    add: 0\n")?;
    Ok(())
}

#[test]
fn devices_are_processes(rt: HostRuntime) -> Result<(), Fail> {
    write_inputs(&rt)?;
    for (device, status, end) in DEVICES {
        fs::write(&rt, "d.yaml", device)?;
        let mut host = RealHost::new(&rt);
        let mut out = MemorySink::new(Items::new(rt.alloc()));
        let mut err = MemorySink::new(Items::new(rt.alloc()));
        let ended = run(rt.alloc(), RUN, &mut host, &mut out, &mut err)?;
        assert_eq!(rt; ended, status);
        assert!(rt; out.bytes().ends_with(end.as_bytes()));
    }
    Ok(())
}

#[test]
fn faults_of_files_are_told(rt: HostRuntime) -> Result<(), Fail> {
    write_inputs(&rt)?;
    for (words, line) in FAULTS {
        let mut host = RealHost::new(&rt);
        let mut out = MemorySink::new(Items::new(rt.alloc()));
        let mut err = MemorySink::new(Items::new(rt.alloc()));
        let ended = run(rt.alloc(), words, &mut host, &mut out, &mut err)?;
        assert_eq!(rt; ended, Status::HostFault);
        assert_eq!(rt; err.bytes(), line.as_bytes());
    }
    Ok(())
}

#[test]
fn bytes_are_read_as_they_were_written(rt: HostRuntime) -> Result<(), Fail> {
    let mut host = RealHost::new(&rt);
    assert_eq!(rt; host.write_file("bytes", BYTES), Ok(()));
    let bytes = read_file(rt.alloc(), &mut host, "bytes", 16)?;
    assert_eq!(rt; bytes.as_slice(), BYTES);
    Ok(())
}

#[test]
fn a_full_stream_is_told(rt: HostRuntime) -> Result<(), Fail> {
    write_inputs(&rt)?;
    let mut host = RealHost::new(&rt);
    let mut out = RealSink::new(File::create(&rt, "/dev/full")?);
    let mut err = MemorySink::new(Items::new(rt.alloc()));
    let words = "rvsuite validate --isa i.yaml";
    let ended = run(rt.alloc(), words, &mut host, &mut out, &mut err)?;
    assert_eq!(rt; ended, Status::SinkFault);
    Ok(())
}

#[test]
fn short_writes_go_on(rt: HostRuntime) -> Result<(), Fail> {
    let mut out = RealSink::new(Narrow(File::create(&rt, "narrow.txt")?));
    assert_eq!(rt; out.put(b"PASS"), Ok(3));
    assert_eq!(rt; put_all(&mut out, b"S add 10 words\n"), Ok(()));
    let text = fs::read_to_string(&rt, "narrow.txt")?;
    assert_eq!(rt; text.as_str(), "PASS add 10 words\n");
    Ok(())
}
