ghost use Rattle.std.specs.Prelude.{◌≡◌, ◌<◌, length, IfOk};
ghost use Rattle.drift_world.specs.Beginning.{AreFresh};
ghost use Rattle.{run_law.specs.machines.Nodes.begun_node, world_drive.specs.machines.Standing.StandsAsDevice};

use crate::machines::{DeviceMachine, OutOfMemory};
use end_system::EndSystem;
use net_plan::DeviceId;
use schedule_tables::Accepted;
use std::alloc::Global;
use switch_ports::Switch;

/// The machines of the network's devices as they begin, in the network's order.
///
/// The error is that memory ran out. No later call of a machine takes memory.
pub fn machines_of(alloc: Global, accepted: &Accepted) -> Result<Vec<DeviceMachine>, OutOfMemory>
    ensures { IfOk result (λ machines. AreFresh StandsAsDevice accepted.now machines.items) }
{
    let mut machines = Vec::new(alloc);
    for place in 0..accepted.network().device.as_slice().len() {
        let machine = machine_of(alloc, accepted, DeviceId(place as u32))?;
        if machines.push(machine).is_err() {
            return Err(OutOfMemory);
        }
    }
    Ok(machines)
}

/// The machine of a device of the network as it begins, by the role of the device.
fn machine_of(
    alloc: Global,
    accepted: &Accepted,
    device: DeviceId,
) -> Result<DeviceMachine, OutOfMemory>
    requires { device.0 < length accepted.now.device }
    ensures { IfOk result (λ machine. StandsAsDevice machine accepted.now device (begun_node accepted.now device)) }
{
    let devices = accepted.network().device.as_slice();
    if devices[device.0 as usize].role.is_end_system() {
        Ok(DeviceMachine::EndSystem(EndSystem::new(alloc, accepted, device)?))
    } else {
        Ok(DeviceMachine::Switch(Switch::new(alloc, accepted, device)?))
    }
}
