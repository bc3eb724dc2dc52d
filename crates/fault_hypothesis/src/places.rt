ghost use Rattle.std.specs.{Option.option_copied, Prelude.{◌↔◌, ◌≡◌, IsTrue, MatchOption}};
ghost use Rattle.net_plan.specs.{Places.{device_at, link_at}, Rules.HasOffSwitch};
ghost use Rattle.tte_units.specs.declared.frames.channel.Channel.{Channel as ChannelValue};
ghost use Rattle.run_law.specs.scenario.Faults.{BeginsOn, IsLinkOf};

use net_plan::{Device, DeviceId, Link, LinkId, Network};
use tte_units::frames::Channel;

/// The device of this id, if the network has it.
pub(crate) fn device_at(network: &Network, device: DeviceId) -> Option<&Device>
    ensures { option_copied result ≡ device_at network.now device }
{
    network.device.as_slice().get(device.0 as usize)
}

/// The link of this id, if the network has it.
pub(crate) fn link_at(network: &Network, link: LinkId) -> Option<&Link>
    ensures { option_copied result ≡ link_at network.now link }
{
    network.link.as_slice().get(link.0 as usize)
}

/// The channel of the link, which is that of its parent.
pub(crate) fn channel_of(network: &Network, link: LinkId) -> Option<Channel>
    ensures { (channel : ChannelValue) → (result ≡ Some channel) ↔ IsLinkOf network.now channel link }
{
    let found = link_at(network, link)?;
    let parent = device_at(network, found.parent)?;
    parent.channel
}

/// Does the device begin on?
pub(crate) fn begins_on(network: &Network, device: DeviceId) -> bool
    ensures { IsTrue result ↔ BeginsOn network.now device }
{
    match device_at(network, device) {
        Some(found) => found.start.is_some(),
        None => false,
    }
}

/// The first channel that has a switch that begins off, if one has.
pub(crate) fn off_channel(network: &Network) -> Option<Channel>
    ensures { MatchOption result
        ((channel : ChannelValue) → HasOffSwitch network.now channel → ⊥)
        (HasOffSwitch network.now) }
{
    if network.has_off_switch(Channel::A) {
        Some(Channel::A)
    } else if network.has_off_switch(Channel::B) {
        Some(Channel::B)
    } else {
        None
    }
}
