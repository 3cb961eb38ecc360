//! The architectural test suite for RV32I and RV32E cores with M and A, over real files and
//! streams.
#![tactic(auto)]

mod exiting;
#[cfg(test)]
mod tests;

use exiting::exit_status;
use rvs_real::{RealHost, RealSink, real_words};
use std::process::ExitCode;

fn main(rt: HostRuntime) -> ExitCode {
    let mut host = RealHost::new(&rt);
    let (mut out, mut err) = (RealSink::new(rt.stdout()), RealSink::new(rt.stderr()));
    ExitCode::from(exit_status(rt.alloc(), real_words(&rt), &mut host, &mut out, &mut err))
}
