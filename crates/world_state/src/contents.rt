use crate::packets::{Happened, Packet};
use net_plan::{DeviceId, LinkId, VlId};
use run_law::plain::PlainBody;
use tte_units::Units;
use tte_units::frames::Pcf;

/// How a way of a link is at present. Times are in units of 2^-16 ns.
#[derive(Clone, Copy)]
pub struct WayState {
    /// How long a frame is on the wire.
    pub delay: u64,
    /// How long a frame is held at the port.
    pub hold: u64,
    /// Is what is sent on it lost?
    pub cut: bool,
}

/// The octets of a frame of the schedule.
#[derive(Drop)]
pub enum Timed {
    /// Those that its sender made for a cycle.
    Made(VlId, u32),
    /// Those that a broken master sent.
    Sent(Packet),
}

/// What is on a wire.
#[derive(Drop)]
pub enum Signal {
    /// A control frame without a fault.
    Control(Pcf),
    /// A frame of the schedule.
    Timed(Timed),
    /// The octets that a broken master sent, whatever they are.
    Octets(Packet),
}

/// What is under way: on a wire, or at a port.
#[derive(Drop)]
pub enum Content {
    /// What was put on the wire.
    Wire(Signal),
    /// The frame, and what the device's clock read when it gave it to the link.
    Port(Pcf, u64),
}

/// A frame that waits at a device for its permanence.
#[derive(Clone, Copy)]
pub struct Waits {
    /// Where it waits.
    pub device: DeviceId,
    /// The link by which it came.
    pub link: LinkId,
    /// The number of the record by which it came.
    pub cause: u64,
    /// The frame.
    pub frame: Pcf,
    /// What the device's clock reads when the frame is permanent.
    pub point: Units,
}

/// The frame of a virtual link that a switch holds: the last that it took, by the record of this number.
#[derive(Drop)]
pub struct Holding {
    /// The switch.
    pub device: DeviceId,
    /// The virtual link.
    pub vl: VlId,
    /// The number of that record.
    pub number: u64,
    /// The octets of the frame.
    pub octets: Timed,
}

/// A switch, and a virtual link of which it may hold a frame.
#[derive(Clone, Copy)]
pub struct HoldSpot {
    /// The switch.
    pub device: DeviceId,
    /// The virtual link.
    pub vl: VlId,
}

/// An event of the present instant, by the number of its record, whose outcome is not settled.
#[derive(Drop)]
pub struct Befallen {
    /// The number of that record.
    pub number: u64,
    /// What befell.
    pub what: Happened,
}

/// A record of the present instant that is still to be given, and the frame that it is of.
#[derive(Drop)]
pub struct Settled {
    /// What it says.
    pub body: PlainBody,
    /// Its frame, where it is of a control frame.
    pub frame: Option<Pcf>,
    /// Its octets, where it is of a frame of the schedule.
    pub octets: Option<Timed>,
}
