//! What the network says of a device and of its times.

ghost use Rattle.std.specs.{Int.int_div_euclid, Prelude.{◌*◌, ◌+◌, ◌<◌, ◌^◌, ◌≡◌, ◌≤ℤ◌, ◌≤◌, IfSome, pos}};
ghost use Rattle.{device_rules.specs.Widths.IsLocal, run_law.specs.device.Standpoints.cycle_at};
ghost use Rattle.run_law.specs.control.Permanence.{waits_for};
ghost use Rattle.{net_plan.specs.{Places.is_master, Ranges.{IsInRange, IsWithin}}, sync_state.specs.Plan.expected_at};
ghost use Rattle.tte_units.specs.Amount.{amount};
ghost use Rattle.run_law.specs.scenario.Devices.{expected_by, has_role, is_cm, is_cm_role, is_end, is_parent_of};
ghost use Rattle.run_law.specs.scenario.{Devices.{is_relay, is_relay_role, plan_of, start_of}, Ways.{way_from, way_to, wire_of}};

use net_plan::{DeviceId, LinkId, Network, Role, Way};
use tte_units::Units;

/// Is the device a compression master?
pub fn is_cm(network: &Network, device: DeviceId) -> bool
    ensures { result ≡ is_cm network.now device }
{
    match network.device.as_slice().get(device.0 as usize) {
        Some(found) => is_cm_role(found.role),
        None => false,
    }
}

fn is_cm_role(role: Role) -> bool
    ensures { result ≡ is_cm_role role }
{
    match role {
        Role::Cm => true,
        Role::Relay | Role::Master | Role::Client => false,
    }
}

/// Is the device a synchronisation master?
pub fn is_master(network: &Network, device: DeviceId) -> bool
    ensures { result ≡ has_role network.now is_master device }
{
    match network.device.as_slice().get(device.0 as usize) {
        Some(found) => found.role.is_master(),
        None => false,
    }
}

/// Is the device a relay?
pub fn is_relay(network: &Network, device: DeviceId) -> bool
    ensures { result ≡ is_relay network.now device }
{
    match network.device.as_slice().get(device.0 as usize) {
        Some(found) => is_relay_role(found.role),
        None => false,
    }
}

fn is_relay_role(role: Role) -> bool
    ensures { result ≡ is_relay_role role }
{
    match role {
        Role::Relay => true,
        Role::Cm | Role::Master | Role::Client => false,
    }
}

/// Is the device an end system?
pub fn is_end(network: &Network, device: DeviceId) -> bool
    ensures { result ≡ is_end network.now device }
{
    match network.device.as_slice().get(device.0 as usize) {
        Some(found) => found.role.is_end_system(),
        None => false,
    }
}

/// Where the device's clock begins. It is None for one that begins off.
pub fn start_of(network: &Network, device: DeviceId) -> Option<Units>
    ensures value { result ≡ start_of network.now device }
    ensures range { IsInRange network.now → IfSome result (IsWithin 0 (2 ^ 40)) }
{
    network.device.as_slice().get(device.0 as usize)?.start
}

/// Is the device the parent of the link?
pub fn is_parent_of(network: &Network, device: DeviceId, link: LinkId) -> bool
    ensures { result ≡ is_parent_of network.now device link }
{
    match network.link.as_slice().get(link.0 as usize) {
        Some(found) => found.parent.0 == device.0,
        None => false,
    }
}

/// Does the device wait for the permanence of what comes by the link?
pub fn waits_for(network: &Network, device: DeviceId, link: LinkId) -> bool
    ensures { result ≡ waits_for network.now device link }
{
    !is_relay(network, device) || !is_parent_of(network, device, link)
}

/// The way on which the device sends on the link.
pub fn way_from(network: &Network, device: DeviceId, link: LinkId) -> Way
    ensures { result ≡ way_from network.now device link }
{
    if is_parent_of(network, device, link) {
        Way::Down
    } else {
        Way::Up
    }
}

/// The way on which the device receives by the link.
pub fn way_to(network: &Network, device: DeviceId, link: LinkId) -> Way
    ensures { result ≡ way_to network.now device link }
{
    if is_parent_of(network, device, link) {
        Way::Up
    } else {
        Way::Down
    }
}

/// The nominal delay of the link's wire.
pub(crate) fn wire_of(network: &Network, link: LinkId) -> u64
    requires { IsInRange network.now }
    ensures value { result ≡ wire_of network.now link }
{
    match network.link.as_slice().get(link.0 as usize) {
        Some(found) => found.wire.amount(),
        None => 0,
    }
}

/// The precision, as a whole number.
pub(crate) fn precision(network: &Network) -> i128
    requires { IsInRange network.now }
    ensures value { result ≡ pos (amount network.now.precision) }
    ensures high { result ≤ℤ pos (2 ^ 40) }
{
    i128::from(network.precision.amount())
}

/// The greatest delay of a control frame, as a whole number.
pub(crate) fn dmax(network: &Network) -> i128
    requires { IsInRange network.now }
    ensures value { result ≡ pos (amount network.now.dmax) }
    ensures high { result ≤ℤ pos (2 ^ 40) }
{
    i128::from(network.dmax.amount())
}

/// When the device expects a compressed frame, from the beginning of its cycle.
fn expected_by(network: &Network, device: DeviceId) -> u64
    requires { IsInRange network.now }
    ensures value { result ≡ expected_by network.now device }
    ensures high { result ≤ 2 ^ 43 }
{
    let compression = 2 * network.precision.amount() + network.calc.amount();
    if is_cm(network, device) {
        network.dmax.amount() + compression
    } else {
        2 * network.dmax.amount() + compression
    }
}

/// Where the cycle begins.
pub(crate) fn begun(network: &Network, cycle: u64) -> u128
    requires { IsInRange network.now }
    ensures value { result ≡ cycle * amount network.now.cycle }
    ensures high { result ≤ cycle * 2 ^ 40 }
{
    u128::from(cycle) * u128::from(network.cycle.amount())
}

/// The local value at which the device expects the frame of the cycle.
pub(crate) fn expected_at(network: &Network, device: DeviceId, cycle: u64) -> i128
    requires { IsInRange network.now }
    ensures value { result ≡ expected_at (plan_of network.now device) cycle }
    ensures low { pos 0 ≤ℤ result }
    ensures high { result ≤ℤ pos (cycle * 2 ^ 40 + 2 ^ 43) }
{
    (begun(network, cycle) + u128::from(expected_by(network, device))) as i128
}

/// The cycle of a local value, which is 0 before the first cycle.
pub fn cycle_at(network: &Network, value: i128) -> u64
    requires range { IsInRange network.now }
    requires value { IsLocal value }
    ensures { result ≡ cycle_at network.now value }
{
    if value < 0 {
        0
    } else {
        (value as u128 / u128::from(network.cycle.amount())) as u64
    }
}

/// The number of the cycle in which a local value lies, which is negative before cycle 0.
pub(crate) fn cycle_of(network: &Network, value: i128) -> i128
    requires { IsInRange network.now }
    ensures { result ≡ int_div_euclid value network.now.cycle.0 }
{
    value.div_euclid(i128::from(network.cycle.0))
}
