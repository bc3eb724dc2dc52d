ghost use Rattle.std.specs.Prelude.{◌<◌, ◌^◌, ◌↔◌, ◌≡◌, ◌≤◌, IfNone, IfSome, IsNone, IsTrue, Some, length};
ghost use Rattle.net_plan.specs.Bearers.{HasNoBearer, IsFirstBearer, device_names, link_names, vl_names};
ghost use Rattle.net_plan.specs.Belonging.{HasDevice, HasLink, HasVl, device_name, link_name, vl_name};
ghost use Rattle.net_plan.specs.{Places.row_of, Ranges.IsInRange, Rules.HasOffSwitch};

use crate::{Device, DeviceId, LinkId, Network, VlId};
use tte_units::frames::Channel;

impl Network {
    /// The first device of this name. It is None exactly where no device has it.
    ///
    /// There are fewer than 2^32 devices.
    pub fn device_named(&self, name: &str) -> Option<DeviceId>
        requires { length self.now.device < 2 ^ 32 }
        ensures first { IfSome result (λ d. IsFirstBearer (device_names self.now.device) name.now d.0) }
        ensures none { IfNone result (HasNoBearer (device_names self.now.device) name.now) }
    {
        let place = self
            .device
            .as_slice()
            .iter()
            .position(|device| device.name.is(name))?;
        Some(DeviceId(place as u32))
    }

    /// The first link of this name. It is None exactly where no link has it.
    ///
    /// There are fewer than 2^32 links.
    pub fn link_named(&self, name: &str) -> Option<LinkId>
        requires { length self.now.link < 2 ^ 32 }
        ensures first { IfSome result (λ l. IsFirstBearer (link_names self.now.link) name.now l.0) }
        ensures none { IfNone result (HasNoBearer (link_names self.now.link) name.now) }
    {
        let place = self
            .link
            .as_slice()
            .iter()
            .position(|link| link.name.is(name))?;
        Some(LinkId(place as u32))
    }

    /// The first virtual link of this name. It is None exactly where no virtual link has it.
    ///
    /// There are fewer than 2^32 virtual links.
    pub fn vl_named(&self, name: &str) -> Option<VlId>
        requires { length self.now.vl < 2 ^ 32 }
        ensures first { IfSome result (λ v. IsFirstBearer (vl_names self.now.vl) name.now v.0) }
        ensures none { IfNone result (HasNoBearer (vl_names self.now.vl) name.now) }
    {
        let place = self.vl.as_slice().iter().position(|vl| vl.name.is(name))?;
        Some(VlId(place as u32))
    }

    /// The name of a device of the network.
    pub fn device_name(&self, device: DeviceId) -> &[u8]
        requires in_range { IsInRange self.now }
        requires of_network { HasDevice self.now device }
        ensures text { result.now ≡ device_name self.now device }
        ensures short { length result.now ≤ 16 }
    {
        self.device.as_slice()[device.0 as usize].name.as_slice()
    }

    /// The name of a link of the network.
    pub fn link_name(&self, link: LinkId) -> &[u8]
        requires in_range { IsInRange self.now }
        requires of_network { HasLink self.now link }
        ensures text { result.now ≡ link_name self.now link }
        ensures short { length result.now ≤ 16 }
    {
        self.link.as_slice()[link.0 as usize].name.as_slice()
    }

    /// The name of a virtual link of the network.
    pub fn vl_name(&self, vl: VlId) -> &[u8]
        requires in_range { IsInRange self.now }
        requires of_network { HasVl self.now vl }
        ensures text { result.now ≡ vl_name self.now vl }
        ensures short { length result.now ≤ 16 }
    {
        self.vl.as_slice()[vl.0 as usize].name.as_slice()
    }

    /// The place of the first row by which the virtual link goes by the link.
    pub fn row_of(&self, vl: VlId, link: LinkId) -> Option<usize>
        ensures is { result ≡ row_of self.now vl link }
        ensures there { IfSome result (λ place. place < length self.now.row) }
    {
        self.row
            .as_slice()
            .iter()
            .position(|row| row.vl.0 == vl.0 && row.link.0 == link.0)
    }

    /// Does some switch of the channel begin off?
    pub fn has_off_switch(&self, channel: Channel) -> bool
        ensures { IsTrue result ↔ HasOffSwitch self.now channel }
    {
        self.device
            .as_slice()
            .iter()
            .any(|device| is_off_switch(device, channel))
    }
}

/// Is the device a switch of the channel that begins off?
fn is_off_switch(device: &Device, channel: Channel) -> bool
    ensures { IsTrue result ↔ ((device.now.channel ≡ Some channel) × IsNone device.now.start) }
{
    device.channel == Some(channel) && device.start.is_none()
}
