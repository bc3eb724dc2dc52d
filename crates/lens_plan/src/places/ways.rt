//! The ways of a message's frames to its receivers.
ghost use Rattle.std.specs.Prelude.{◌++◌, ◌+◌, ◌∷◌, ◌≡◌, ◌≤◌, OnOk, [], length};
ghost use Rattle.net_plan.specs.{Paths.IsTree, Places.IsDeviceOf, Ranges.IsInRange};
ghost use Rattle.lens_plan.specs.places.Ways.{Adds, IsWay, down_hops, is_on, up_hops};

use net_plan::{DeviceId, LinkId, Network, Way};
use tte_io::OutOfMemory;
use tte_units::frames::Channel;

/// A row of a message by its port.
#[derive(Clone, Copy)]
pub(crate) struct Hop {
    pub(crate) link: LinkId,
    pub(crate) way: Way,
}

/// Is the link one of these?
fn is_on(path: &[LinkId], link: LinkId) -> bool
    ensures { result ≡ is_on path.now link }
{
    path.iter().any(|other| other.0 == link.0)
}

fn push(hops: &mut Vec<Hop>, hop: Hop) -> Result<(), OutOfMemory>
    ensures { OnOk result (hops.new.items ≡ hops.old.items ++ hop ∷ []) }
{
    match hops.push(hop) {
        Ok(()) => Ok(()),
        Err(_) => Err(OutOfMemory),
    }
}

/// Adds the link upwards, if it is not on the path.
fn push_up(link: LinkId, other: &[LinkId], hops: &mut Vec<Hop>) -> Result<(), OutOfMemory>
    ensures hops { OnOk result (hops.new.items ≡ hops.old.items ++ up_hops other.now (link ∷ [])) }
    ensures short { OnOk result (length hops.new.items ≤ length hops.old.items + 1) }
{
    if is_on(other, link) {
        return Ok(());
    }
    let way = Way::Up;
    push(hops, Hop { link, way })
}

/// Adds the links of the one path that are not on the other, upwards.
fn push_ups(path: &[LinkId], other: &[LinkId], hops: &mut Vec<Hop>) -> Result<(), OutOfMemory>
    ensures hops { OnOk result (hops.new.items ≡ hops.old.items ++ up_hops other.now path.now) }
    ensures short { OnOk result (length hops.new.items ≤ length hops.old.items + length path.now) }
{
    'links: for link in path {
        match push_up(*link, other, hops) {
            Ok(()) => (),
            Err(OutOfMemory) => return Err(OutOfMemory),
        }
    }
    Ok(())
}

/// Adds the links of the one path that are not on the other, downwards, from its last link on.
fn push_downs(path: &[LinkId], other: &[LinkId], hops: &mut Vec<Hop>) -> Result<(), OutOfMemory>
    ensures hops { OnOk result (hops.new.items ≡ hops.old.items ++ down_hops other.now path.now) }
    ensures short { OnOk result (length hops.new.items ≤ length hops.old.items + length path.now) }
{
    let mut left = path.len();
    'links: while left > 0 {
        left -= 1;
        let link = path[left];
        if !is_on(other, link) {
            let way = Way::Down;
            push(hops, Hop { link, way })?;
        }
    }
    Ok(())
}

/// Adds the way from the one end system to the other by the channel: up the links that only the sender's path has, and
/// down those that only the receiver's has.
pub(crate) fn push_way(
    network: &Network,
    sender: DeviceId,
    receiver: DeviceId,
    channel: Channel,
    hops: &mut Vec<Hop>,
) -> Result<(), OutOfMemory>
    requires range { IsInRange network.now }
    requires tree { IsTree network.now }
    requires sender { IsDeviceOf network.now channel sender }
    requires receiver { IsDeviceOf network.now channel receiver }
    ensures way { OnOk result (Adds (IsWay network.now sender receiver channel) hops.old.items hops.new.items) }
    ensures short { OnOk result (length hops.new.items ≤ length hops.old.items + 16) }
{
    let from = network.path(sender, channel);
    let to = network.path(receiver, channel);
    push_ups(from.as_slice(), to.as_slice(), hops)?;
    push_downs(to.as_slice(), from.as_slice(), hops)
}
