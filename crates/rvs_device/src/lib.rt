//! Devices: programs that run a test and write a signature file, which is judged.
#![tactic(auto)]

mod devices;
mod filling;
mod judging;
mod printing;
mod reading;
mod refusals;
mod verdicts;
mod words;

pub use devices::Device;
pub use filling::Filling;
pub use judging::{JudgeFault, SIGNATURE_LIMIT, judge};
pub use printing::verdict_line;
pub use reading::read_device;
pub use refusals::DeviceRefusal;
pub use verdicts::TestVerdict;
