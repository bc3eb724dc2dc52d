//! The tree of a channel.
ghost use Rattle.std.specs.{List.All, Prelude.{◌+◌, ◌<◌, ◌≡◌, ◌≤◌, IfOk, OnOk, length}};
ghost use Rattle.lens_schedule.specs.Tree.{AreTwigs, AreTwigsBelow, IsTwig, digit_of, place_of, twigs_before};
ghost use Rattle.net_plan.specs.{Paths.IsTree, Places.IsDeviceOf, Ranges.IsInRange};

use crate::lanes::column_of;
use net_plan::{DeviceId, LinkId, Network};
use std::alloc::{AllocError, Global};
use tte_units::frames::Channel;

/// A device in the tree of a channel, with its link to its parent, how far to the right it stands, in pixels, and its
/// own place and its parent's in the order of the tree.
#[derive(Clone, Copy)]
pub struct Twig {
    pub device: DeviceId,
    pub link: Option<LinkId>,
    pub x: u64,
    pub place: u64,
    pub parent: u64,
}

/// A digit of a path, from the root: the link that is so far from it, or 0 behind the path's end.
fn digit_of(links: &[LinkId], level: usize) -> u64
    requires { All (λ link. link.0 < 128) links.now }
    ensures value { result ≡ digit_of links.now level }
    ensures bound { result ≤ 255 }
{
    if level < links.len() {
        u64::from(links[links.len() - 1 - level].0) + 1
    } else {
        0
    }
}

/// The place of a device with such a path: behind its parent, and before its parent's next link.
fn place_of(links: &[LinkId]) -> u64
    requires { All (λ link. link.0 < 128) links.now }
    ensures { result ≡ place_of links.now }
{
    let mut place = 0;
    'levels: for level in 0..8 {
        place = place * 256 + digit_of(links, level);
    }
    place
}

/// The device of the channel with its path.
fn twig_of(network: &Network, channel: Channel, device: DeviceId) -> Twig
    requires few { length network.now.link ≤ 128 }
    requires tree { IsTree network.now }
    requires member { IsDeviceOf network.now channel device }
    ensures { IsTwig network.now channel device result }
{
    let path = network.path(device, channel);
    let links = path.as_slice();
    match links.split_first() {
        Some((link, above)) => Twig {
            device,
            link: Some(*link),
            x: column_of(channel) + 20 + 16 * links.len() as u64,
            place: place_of(links),
            parent: place_of(above),
        },
        None => Twig {
            device,
            link: None,
            x: column_of(channel) + 20,
            place: 0,
            parent: 0,
        },
    }
}

/// Adds the device of this number, if it is of the channel.
fn push_twig(
    twigs: &mut Vec<Twig>,
    network: &Network,
    channel: Channel,
    device: DeviceId,
) -> Result<(), AllocError>
    requires few { length network.now.link ≤ 128 }
    requires tree { IsTree network.now }
    requires before { AreTwigsBelow network.now channel device.0 twigs.old.items }
    ensures { OnOk result (AreTwigsBelow network.now channel (device.0 + 1) twigs.new.items) }
{
    if network.is_device_of(device, channel) {
        twigs.push(twig_of(network, channel, device))?;
    }
    Ok(())
}

/// The devices of the channel, in the order of the network.
pub(crate) fn twigs_of(
    alloc: Global,
    network: &Network,
    channel: Channel,
) -> Result<Vec<Twig>, AllocError>
    requires range { IsInRange network.now }
    requires few { length network.now.link ≤ 128 }
    requires tree { IsTree network.now }
    ensures twigs { IfOk result (λ twigs. AreTwigs network.now channel twigs.items) }
    ensures few { IfOk result (λ twigs. length twigs.items ≤ length network.now.device) }
{
    let mut twigs = Vec::new(alloc);
    let devices = network.device.as_slice().len() as u32;
    'devices: for number in 0..devices {
        push_twig(&mut twigs, network, channel, DeviceId(number))?;
    }
    Ok(twigs)
}

/// How many devices of the tree are before the place.
pub(crate) fn twigs_before(twigs: &[Twig], place: u64) -> u64
    ensures value { result ≡ twigs_before twigs.now place }
    ensures few { result ≤ length twigs.now }
{
    let mut count = 0;
    'twigs: for twig in twigs {
        if twig.place < place {
            count += 1;
        }
    }
    count
}
