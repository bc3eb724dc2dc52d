//! What the least times are made of.
ghost use Rattle.std.specs.Prelude.{◌*◌, ◌^◌, ◌≡◌, ◌≤◌, Some, max};
ghost use Rattle.lens_slack.specs.least.Parts.{IsLongest, IsPortTimeOf, IsStartOf, IsSteady};
ghost use Rattle.net_plan.specs.{Bounds.{IsGreatest, IsOfPathFrom, IsOfPathOn}, Ranges.{IsDeviceInRange, IsInRange}};
ghost use Rattle.{net_plan.specs.Paths.IsTree, schedule_tables.specs.Delays.delay_on, tte_units.specs.Amount.units_of};

use net_plan::{Device, DeviceId, Network};
use schedule_checker::{delay_on, pcf_port_time};
use tte_units::frames::Channel;

/// What is the same in beta for all dmax: the jitters of a path and the roundings of readings.
pub(crate) fn steady_beta(network: &Network) -> u64
    requires range { IsInRange network.now }
    requires tree { IsTree network.now }
    ensures steady { IsSteady network.now result }
    ensures some { 1 ≤ result }
    ensures bound { result ≤ 2 ^ 44 }
{
    let drift = 4 * u64::from(network.rho) * network.dmax.amount() / 1_000_000_000;
    network.beta().amount() - drift
}

/// The greater of two numbers.
pub(crate) fn greater(one: u64, other: u64) -> u64
    ensures { result ≡ max one other }
{
    one.max(other)
}

/// The longest delay of a path.
pub fn longest_delay(network: &Network) -> u64
    requires range { IsInRange network.now }
    requires tree { IsTree network.now }
    ensures longest { IsLongest network.now result }
    ensures bound { result ≤ 24 * 2 ^ 40 }
{
    greater(
        longest_on(network, Channel::A),
        longest_on(network, Channel::B),
    )
}

/// The longest delay of a path on the channel.
fn longest_on(network: &Network, channel: Channel) -> u64
    requires range { IsInRange network.now }
    requires tree { IsTree network.now }
    ensures longest { IsGreatest (IsOfPathOn network.now channel (delay_on network.now)) result }
    ensures bound { result ≤ 24 * 2 ^ 40 }
{
    let mut longest = 0;
    'devices: for place in 0..network.device.as_slice().len() {
        longest = greater(
            longest,
            delay_from(network, DeviceId(place as u32), channel),
        );
    }
    longest
}

/// The delay of the device's path, or of none where it is not of the channel.
fn delay_from(network: &Network, device: DeviceId, channel: Channel) -> u64
    requires range { IsInRange network.now }
    requires tree { IsTree network.now }
    ensures greatest { IsGreatest (IsOfPathFrom network.now channel device (delay_on network.now)) result }
    ensures bound { result ≤ 24 * 2 ^ 40 }
{
    if network.is_device_of(device, channel) {
        delay_on(network, &network.path(device, channel))
    } else {
        0
    }
}

/// The greatest start of a device.
pub fn greatest_start(network: &Network) -> u64
    requires { IsInRange network.now }
    ensures greatest { IsGreatest (IsStartOf network.now) result }
    ensures bound { result ≤ 2 ^ 40 }
{
    let mut greatest = 0;
    'devices: for device in network.device.as_slice() {
        greatest = greater(greatest, start_of(device));
    }
    greatest
}

/// With how much the device begins, if it begins on.
fn start_of(device: &Device) -> u64
    requires { IsDeviceInRange device.now }
    ensures greatest { IsGreatest (λ n. device.now.start ≡ Some (units_of n)) result }
    ensures bound { result ≤ 2 ^ 40 }
{
    match device.start {
        Some(start) => start.amount(),
        None => 0,
    }
}

/// How long a protocol control frame occupies the port of the slowest link.
pub fn slowest_port(network: &Network) -> u64
    ensures greatest { IsGreatest (IsPortTimeOf network.now) result }
    ensures bound { result ≤ 2 ^ 30 }
{
    let mut slowest = 0;
    'links: for link in network.link.as_slice() {
        slowest = greater(slowest, pcf_port_time(link));
    }
    slowest
}
