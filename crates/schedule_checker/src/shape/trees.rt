ghost use Rattle.std.specs.Prelude.{◌<◌, ◌↔◌, ◌≡◌, ◌≤◌, IfNone, IfSome, IsTrue, Some, length};
ghost use Rattle.net_plan.specs.{Paths.IsUplink, Places.{IsCmOf, IsRoleOf, IsSwitchOf}, Ranges.IsInRange};
ghost use Rattle.net_plan.specs.Rules.{ExactlyOne, HasOneCm, IsChildOf, IsConnected, JoinsChildToSwitch};
ghost use Rattle.schedule_checker.specs.{Parts.part_of_channel, Shape.{IsConnectedOn, JoinsOn, LeadsToCmWithin}};

use crate::roles::is_end_system;
use net_plan::{Device, DeviceId, Link, Network, Role};
use tte_units::frames::Channel;

/// The most links from a device to its compression master.
const LONGEST_PATH: u32 = 8;

/// The channel of which the part of the rule speaks.
fn channel_of_part(part: u32) -> Option<Channel>
    ensures none { IfNone result (2 ≤ part) }
    ensures some { IfSome result (λ channel. part ≡ part_of_channel channel) }
{
    match part {
        0 => Some(Channel::A),
        1 => Some(Channel::B),
        _ => None,
    }
}

/// Has channel a (part 0), and channel b (part 1), exactly one compression master?
pub(crate) fn has_one_cm(network: &Network, part: u32) -> bool
    ensures { IsTrue result ↔ HasOneCm network.now part }
{
    match channel_of_part(part) {
        Some(channel) => has_one_cm_of(network, channel),
        None => true,
    }
}

/// Has the channel exactly one compression master?
fn has_one_cm_of(network: &Network, channel: Channel) -> bool
    ensures { IsTrue result ↔ ExactlyOne (IsCmOf network.now channel) }
{
    network
        .device
        .as_slice()
        .iter()
        .filter(|device| has_role_on(device, Role::Cm, channel))
        .count()
        == 1
}

/// Does the link at the place join an end system, or a relay of the same channel, to a switch?
pub(crate) fn joins_child_to_switch(network: &Network, place: u32) -> bool
    requires { place < length network.now.link }
    ensures { IsTrue result ↔ JoinsChildToSwitch network.now place }
{
    let link = &network.link.as_slice()[place as usize];
    joins_on(network, Channel::A, link) || joins_on(network, Channel::B, link)
}

/// Is the link's parent a switch of the channel, and its child an end system or a relay of the
/// channel?
fn joins_on(network: &Network, channel: Channel, link: &Link) -> bool
    ensures { IsTrue result ↔ JoinsOn network.now channel link.now }
{
    network.is_switch_of(link.parent, channel)
        && (is_end_system(network, link.child)
            || is_role_of(network, Role::Relay, channel, link.child))
}

/// Is the device at the place connected to the compression master of each of its channels?
///
/// An end system is the child of exactly one link of each channel, a relay of exactly one link, and
/// the first uplinks lead to the compression master over at most eight links.
pub(crate) fn is_connected(network: &Network, place: u32) -> bool
    requires { IsInRange network.now }
    ensures { IsTrue result ↔ IsConnected network.now place }
{
    let device = DeviceId(place);
    is_connected_on(network, Channel::A, device) && is_connected_on(network, Channel::B, device)
}

/// Is the device connected on the channel, where it is of the channel?
fn is_connected_on(network: &Network, channel: Channel, device: DeviceId) -> bool
    requires { IsInRange network.now }
    ensures { IsTrue result ↔ IsConnectedOn network.now channel device }
{
    (!is_end_system(network, device) || has_one_uplink(network, channel, device))
        && (!is_role_of(network, Role::Relay, channel, device)
            || is_child_of_one_link(network, device))
        && (!network.is_device_of(device, channel)
            || leads_to_cm(network, channel, device, LONGEST_PATH))
}

/// Is this the device's role, and the channel its own?
fn has_role_on(device: &Device, role: Role, channel: Channel) -> bool
    ensures { IsTrue result ↔ ((device.now.role ≡ role) × (device.now.channel ≡ Some channel)) }
{
    device.role == role && device.channel == Some(channel)
}

/// Has the device this role on the channel?
fn is_role_of(network: &Network, role: Role, channel: Channel, device: DeviceId) -> bool
    ensures { IsTrue result ↔ IsRoleOf network.now role channel device }
{
    match network.device.as_slice().get(device.0 as usize) {
        Some(found) => has_role_on(found, role, channel),
        None => false,
    }
}

/// Is the device the child of exactly one link to a switch of the channel?
fn has_one_uplink(network: &Network, channel: Channel, device: DeviceId) -> bool
    ensures { IsTrue result ↔ ExactlyOne (IsUplink network.now channel device) }
{
    network
        .link
        .as_slice()
        .iter()
        .filter(|link| is_uplink(network, channel, device, link))
        .count()
        == 1
}

/// Does the link lead from the device to a switch of the channel?
fn is_uplink(network: &Network, channel: Channel, device: DeviceId, link: &Link) -> bool
    ensures { IsTrue result ↔ ((link.now.child ≡ device) × IsSwitchOf network.now channel link.now.parent) }
{
    link.child == device && network.is_switch_of(link.parent, channel)
}

/// Is the device the child of exactly one link?
fn is_child_of_one_link(network: &Network, device: DeviceId) -> bool
    ensures { IsTrue result ↔ ExactlyOne (IsChildOf network.now device) }
{
    network
        .link
        .as_slice()
        .iter()
        .filter(|link| link.child == device)
        .count()
        == 1
}

/// Do the first uplinks lead from the device to the channel's compression master, over at most so
/// many links?
fn leads_to_cm(network: &Network, channel: Channel, device: DeviceId, most: u32) -> bool
    requires { IsInRange network.now }
    ensures { IsTrue result ↔ LeadsToCmWithin network.now channel device most }
{
    if is_role_of(network, Role::Cm, channel, device) {
        return true;
    }
    if most == 0 {
        return false;
    }
    match network.uplink(device, channel) {
        Some(link) => {
            let parent = network.link.as_slice()[link.0 as usize].parent;
            leads_to_cm(network, channel, parent, most - 1)
        }
        None => false,
    }
}
