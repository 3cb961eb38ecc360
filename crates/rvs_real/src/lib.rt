//! The words of the command line, and the files, programs and streams of the system, as commands
//! see them.
#![tactic(auto)]

mod host;
mod sink;
mod words;

pub use host::RealHost;
pub use sink::RealSink;
pub use words::real_words;
