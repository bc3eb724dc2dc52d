use crate::{DeviceId, LinkId, Octets, Way};
use tte_units::{Ppb, Units};

/// Something that befalls the network.
#[derive(PartialEq, Eq, Drop)]
pub struct Event {
    /// World time in units of 2^-16 ns.
    pub time: Units,
    pub what: What,
}

/// What befalls it.
#[derive(PartialEq, Eq, Drop)]
pub enum What {
    /// From now on the device's clock has this rate.
    Rate(DeviceId, Ppb),
    /// From now on the way of the link has this wire delay, in units of 2^-16 ns.
    Wire(LinkId, Way, Units),
    /// From now on the sender holds a frame so long before it leaves, in units of 2^-16 ns.
    Hold(LinkId, Way, Units),
    /// From now on the way of the link carries nothing.
    Cut(LinkId, Way),
    /// From now on the way of the link carries frames again.
    Heal(LinkId, Way),
    /// The device is turned on.
    On(DeviceId),
    /// The device breaks, and acts only by `Send` from now on.
    Break(DeviceId),
    /// The broken master puts these octets on its link.
    Send(LinkId, Octets),
    /// Nothing befalls the network from now on.
    End,
}
