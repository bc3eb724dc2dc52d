//! Where a device's lane is: the switches of channel a above, then the end systems, and those of channel b below.
ghost use Rattle.std.specs.Prelude.{◌≡◌, ◌≤◌, ◌^◌, length};
ghost use Rattle.lens_svg.specs.{Lanes.{bottom_of, count_to, is_over, lane_of, rank_at, rank_in, start_of, y_of}, Views.is_shown};
ghost use Rattle.net_plan.specs.Ranges.{IsInRange};

use crate::{DrawnRecords, Ground};
use net_plan::{Device, DeviceId, Network, Role};
use tte_units::frames::Channel;

/// Which group of lanes a device of this role and channel is in, from the top: 0 to 4.
pub fn rank_in(channel: Option<Channel>, role: Role) -> u64
    ensures { result ≡ rank_in channel role }
{
    match (channel, role) {
        (Some(Channel::A), Role::Cm) => 0,
        (Some(Channel::A), Role::Relay | Role::Master | Role::Client) => 1,
        (None, Role::Cm | Role::Relay | Role::Master | Role::Client) => 2,
        (Some(Channel::B), Role::Relay | Role::Master | Role::Client) => 3,
        (Some(Channel::B), Role::Cm) => 4,
    }
}

/// The group of the device at the place.
fn rank_at(devices: &[Device], place: usize) -> u64
    ensures { result ≡ rank_at devices.now place }
{
    match devices.get(place) {
        Some(device) => rank_in(device.channel, device.role),
        None => 0,
    }
}

/// Is the device at the first place above the one at the second?
fn is_over(devices: &[Device], place: usize, other: usize) -> bool
    ensures { result ≡ is_over devices.now place other }
{
    let rank = rank_at(devices, place);
    let beside = rank_at(devices, other);
    rank < beside || rank == beside && place < other
}

/// Which lane is the device's, from 0 at the top.
fn lane_of(network: &Network, kept: &DrawnRecords, device: DeviceId) -> u64
    ensures value { result ≡ lane_of network.now kept.now device }
    ensures few { result ≤ length network.now.device }
{
    let devices = network.device.as_slice();
    let mut count = 0;
    'places: for place in 0..devices.len() {
        if kept.shows(place) && is_over(devices, place, device.0 as usize) {
            count += 1;
        }
    }
    count
}

/// How many devices have a lane.
fn count_of_lanes(network: &Network, kept: &DrawnRecords) -> u64
    ensures value { result ≡ count_to (is_shown kept.now) (length network.now.device) }
    ensures few { result ≤ length network.now.device }
{
    let mut count = 0;
    'places: for place in 0..network.device.as_slice().len() {
        if kept.shows(place) {
            count += 1;
        }
    }
    count
}

/// How far down the device's lane is.
pub(crate) fn y_of(network: &Network, kept: &DrawnRecords, device: DeviceId) -> u64
    requires { IsInRange network.now }
    ensures { result ≡ y_of network.now kept.now device }
{
    192 + 40 * lane_of(network, kept, device)
}

/// How far down the lanes end.
pub(crate) fn bottom_of(network: &Network, kept: &DrawnRecords) -> u64
    requires { IsInRange network.now }
    ensures value { result ≡ bottom_of network.now kept.now }
    ensures few { result ≤ 2 ^ 40 }
{
    172 + 40 * count_of_lanes(network, kept)
}

/// The ground of the device's lane where a run begins.
pub(crate) fn start_of(device: &Device) -> Ground
    ensures { result ≡ start_of device.now }
{
    match device.start {
        Some(_) => Ground::Synchronised,
        None => Ground::Off,
    }
}
