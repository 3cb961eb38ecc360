// Reading a device file.
ghost use Rattle.rvs_base.specs.Sink.{SinkState};
ghost use Rattle.rvs_base.specs.Answers.{seen};
ghost use Rattle.rvs_plan.specs.World.{world};
ghost use Rattle.rvs_plan.specs.Meets.{Meets};
ghost use Rattle.rvs_device.specs.DeviceView.{told};
ghost use Rattle.rvs_inputs.specs.DeviceInput.{device_file};

use crate::tree_file::read_tree;
use rvs_base::{Host, Text};
use rvs_device::{Device, read_device};
use rvs_plan::{Stop, accepted};
use std::alloc::Global;

/// The greatest length of a device file in bytes.
const DEVICE_LIMIT: u64 = 65_536;

/// Reads a device file and checks it.
///
/// # Errors
///
/// [`Stop`]: the file isn't there, can't be read, has more than 65,536 bytes, has no tree, or tells
/// no device.
pub fn read_device_file<H: Host>(alloc: Global, host: &mut H, name: &Text) -> Result<Device, Stop>
    ensures { (out : SinkState) → Meets (device_file name.now)
        (world (H.state host.old) out) (world (H.state host.new) out) (seen told result) }
{
    let name = name.as_str();
    let tree = read_tree(alloc, host, name, DEVICE_LIMIT)?;
    accepted(alloc, name, read_device(alloc, &tree))
}
