ghost use Rattle.std.specs.Prelude.{◌++◌, ◌+◌, ◌<◌, ◌^◌, ◌↔◌, ◌∷◌, ◌≡◌, ◌≤◌, IfNone, IfSome, IsSomeAnd, IsTrue, Some};
ghost use Rattle.std.specs.Prelude.{[], length, slice_get};
ghost use Rattle.net_plan.specs.Paths.{IsFirstUplink, IsPath, IsTree, IsUplink};
ghost use Rattle.net_plan.specs.Places.{IsDeviceOf, IsSwitchOf, device_at, link_at};
ghost use Rattle.net_plan.specs.declared.ids.LinkId.{LinkId as LinkIdValue};

use crate::{DeviceId, LinkId, Network};
use arrayvec::ArrayVec;
use std::marker::Model;
use tte_units::frames::Channel;

/// The most links of a path.
const MOST_LINKS: usize = 8;

/// The links from a device to the compression master of a channel, at most eight, kept in place.
#[derive(Drop)]
pub struct Path {
    links: ArrayVec<LinkId, MOST_LINKS>,
}

impl Model for Path {
    ghost use Rattle.std.specs.Prelude.{List};
    ghost use Rattle.net_plan.specs.declared.ids.LinkId.{LinkId};

    ghost Value = { List LinkId };

    ghost view = { λ path. path.links.items };
}

impl Path {
    fn new() -> Path
        ensures { result ≡ [] }
    {
        Path {
            links: ArrayVec::new(),
        }
    }

    fn push(&mut self, link: LinkId)
        requires { length self.old < 8 }
        ensures { self.new ≡ self.old ++ link ∷ [] }
    {
        self.links.push(link);
    }

    /// The links in their order, from the device on.
    pub fn as_slice(&self) -> &[LinkId]
        ensures value { result.now ≡ self.now }
        ensures short { length result.now ≤ 8 }
    {
        self.links.as_slice()
    }
}

impl Network {
    /// Is the device a switch of the channel?
    pub fn is_switch_of(&self, device: DeviceId, channel: Channel) -> bool
        ensures { IsTrue result ↔ IsSwitchOf self.now channel device }
    {
        match self.device.as_slice().get(device.0 as usize) {
            Some(found) => found.channel == Some(channel),
            None => false,
        }
    }

    /// Is the device of the channel? An end system is of both channels, a switch of its own.
    pub fn is_device_of(&self, device: DeviceId, channel: Channel) -> bool
        ensures { IsTrue result ↔ IsDeviceOf self.now channel device }
    {
        match self.device.as_slice().get(device.0 as usize) {
            Some(found) => found.role.is_end_system() || found.channel == Some(channel),
            None => false,
        }
    }

    /// The first link that leads from the device to a switch of the channel. It is None exactly
    /// where no link does.
    ///
    /// There are fewer than 2^32 links.
    pub fn uplink(&self, device: DeviceId, channel: Channel) -> Option<LinkId>
        requires { length self.now.link < 2 ^ 32 }
        ensures first { IfSome result (IsFirstUplink self.now channel device) }
        ensures none { IfNone result ((link : LinkIdValue) → IsUplink self.now channel device link → ⊥) }
    {
        let place = self.link.as_slice().iter().position(|link| link.child == device
            && self.is_switch_of(link.parent, channel))?;
        Some(LinkId(place as u32))
    }

    /// The path of the device to the channel's compression master.
    ///
    /// The links form a tree on each channel, and the device is of this channel.
    pub fn path(&self, device: DeviceId, channel: Channel) -> Path
        requires few { length self.now.link < 2 ^ 32 }
        requires tree { IsTree self.now }
        requires member { IsDeviceOf self.now channel device }
        ensures leads { IsPath self.now channel device result }
        ensures short { length result ≤ 8 }
    {
        let mut path = Path::new();
        let mut at = device;
        while let Some(link) = self.uplink(at, channel) {
            path.push(link);
            at = self.link.as_slice()[link.0 as usize].parent;
        }
        path
    }
}
