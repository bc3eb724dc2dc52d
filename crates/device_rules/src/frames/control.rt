//! Control frames.

ghost use Rattle.std.specs.Prelude.{◌≡◌, ◌<◌, IfSome};
ghost use Rattle.{net_plan.specs.Ranges.IsInRange, run_law.specs.scenario.Devices.member_of};
ghost use Rattle.run_law.specs.records.Frames.{dispatched_frame, integration_frame, mac_of};

use net_plan::{DeviceId, Network};
use sync_state::membership::one;
use tte_units::frames::{Mac, Members, Pcf, PcfKind};

/// The address of the device.
fn mac_of(network: &Network, device: DeviceId) -> Mac
    ensures { result ≡ mac_of network.now device }
{
    match network.device.as_slice().get(device.0 as usize) {
        Some(found) => found.mac,
        None => Mac::from_number(0),
    }
}

/// The member number of a master.
pub fn member_of(network: &Network, device: DeviceId) -> Option<u32>
    requires { IsInRange network.now }
    ensures value { result ≡ member_of network.now device }
    ensures small { IfSome result (λ member. member < 32) }
{
    match network.device.as_slice().get(device.0 as usize) {
        Some(found) => found.member,
        None => None,
    }
}

/// The integration frame of a device for a cycle and these members, with no delay so far.
pub fn integration_frame(network: &Network, device: DeviceId, cycle: u32, members: Members) -> Pcf
    ensures { result ≡ integration_frame network.now device cycle members }
{
    Pcf {
        destination: network.pcf_destination,
        source: mac_of(network, device),
        cycle,
        members,
        priority: network.priority,
        domain: network.domain,
        kind: PcfKind::Integration,
        clock: 0,
    }
}

/// The frame that a master sends in a cycle: its own bit is its members.
pub fn dispatched_frame(network: &Network, device: DeviceId, cycle: u32) -> Pcf
    requires { IsInRange network.now }
    ensures { result ≡ dispatched_frame network.now device cycle }
{
    let member = match member_of(network, device) {
        Some(member) => member,
        None => 0,
    };
    integration_frame(network, device, cycle, one(member))
}
