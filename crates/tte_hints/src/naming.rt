use net_plan::{Device, DeviceId, Link, LinkId, Name, Network};
use std::str;
use tte_units::frames::Channel;

/// The text of a name.
pub(crate) fn text_of(name: &Name) -> &str {
    str::from_utf8(name.as_slice()).unwrap_or("")
}

/// The device of this id, if the network has it.
pub(crate) fn device_at(network: &Network, device: DeviceId) -> Option<&Device> {
    network.device.as_slice().get(device.0 as usize)
}

/// The link of this id, if the network has it.
pub(crate) fn link_at(network: &Network, link: LinkId) -> Option<&Link> {
    network.link.as_slice().get(link.0 as usize)
}

/// The name of a device, or no text where the network does not have it.
pub(crate) fn device_text(network: &Network, device: DeviceId) -> &str {
    match device_at(network, device) {
        Some(found) => text_of(&found.name),
        None => "",
    }
}

/// The name of a link, or no text where the network does not have it.
pub(crate) fn link_text(network: &Network, link: LinkId) -> &str {
    match link_at(network, link) {
        Some(found) => text_of(&found.name),
        None => "",
    }
}

/// The letter of a channel, as network files have it.
pub(crate) fn letter_of(channel: Channel) -> &'static str {
    match channel {
        Channel::A => "a",
        Channel::B => "b",
    }
}

/// The channel of a link, which is that of its parent.
pub(crate) fn channel_of(network: &Network, link: LinkId) -> Option<Channel> {
    let parent = link_at(network, link)?.parent;
    device_at(network, parent)?.channel
}
