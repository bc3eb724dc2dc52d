use device_rules::Heading;
use net_plan::{DeviceId, LinkId, VlId};
use pcf_codec::PcfRefusal;
use tte_units::frames::Pcf;

/// What the octets of a `send` event are.
#[derive(Clone, Copy)]
pub enum Sending {
    /// A protocol control frame, which is kept as the record's frame.
    Control,
    /// Octets with the EtherType of protocol control frames that spell none.
    Refused(PcfRefusal),
    /// Any others.
    Timed,
}

/// What is kept of what a record says.
#[derive(Clone, Copy)]
pub enum Kept {
    /// An event turns the device on.
    On(DeviceId),
    /// An event puts octets of the broken master on the link.
    Send(LinkId, Sending),
    /// A control frame arrives at the device by the link, with this transparent clock.
    Arrived(DeviceId, LinkId, u64),
    /// A control frame is permanent at the device; does it tell the device the time?
    Permanent(DeviceId, bool),
    /// A compression master sends a frame; does it tell the device the time?
    Compressed(DeviceId, bool),
    /// A master sends its control frame.
    Sent(DeviceId),
    /// The device corrects its clock.
    Corrected(DeviceId),
    /// A control frame leaves the device on the link.
    Left(DeviceId, LinkId),
    /// A time-triggered frame is dispatched by the device on the link.
    TtSent(DeviceId, LinkId),
    /// A switch takes a frame of the virtual link, in this cycle of its own.
    Accepted(DeviceId, VlId, u32),
    /// A frame of the virtual link that came by the link is delivered at the device.
    Delivered(DeviceId, LinkId, VlId),
    /// No record comes from it.
    Other,
}

/// What is kept of a record.
#[derive(Clone, Copy)]
pub struct KeptRecord {
    /// The world time, in units of 2^-16 ns.
    pub time: u64,
    pub kept: Kept,
    /// The protocol control frame that it is of.
    pub frame: Option<Pcf>,
    /// What a judgement reads of the octets of its time-triggered frame.
    pub heading: Heading,
}
