ghost use Rattle.std.specs.Prelude.{◌↔◌, IsTrue};
ghost use Rattle.{net_plan.specs.Places.IsEndSystem, schedule_tables.specs.Schedule.IsSwitch};

use net_plan::{DeviceId, Network};

/// Is the device an end system?
pub(crate) fn is_end_system(network: &Network, device: DeviceId) -> bool
    ensures { IsTrue result ↔ IsEndSystem network.now device }
{
    match network.device.as_slice().get(device.0 as usize) {
        Some(found) => found.role.is_end_system(),
        None => false,
    }
}

/// Is the device a switch?
pub(crate) fn is_switch(network: &Network, device: DeviceId) -> bool
    ensures { IsTrue result ↔ IsSwitch network.now device }
{
    match network.device.as_slice().get(device.0 as usize) {
        Some(found) => !found.role.is_end_system(),
        None => false,
    }
}
