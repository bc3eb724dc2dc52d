ghost use Rattle.std.specs.Prelude.{◌≡◌};
ghost use Rattle.net_plan.specs.Places.{is_end_system, is_master};

use crate::{DeviceId, LinkId, Name, VlId};
use std::marker::Model;
use tte_units::frames::{Channel, Mac};
use tte_units::{Speed, Units};

/// One of the two ways of a link.
#[derive(Clone, Copy, PartialEq, Eq, PartialOrd, Ord)]
pub enum Way {
    /// From the child to the parent, towards the compression master.
    Up,
    /// From the parent to the child.
    Down,
}

/// What a device is (SAE AS6802).
#[derive(Clone, Copy, PartialEq, Eq)]
pub enum Role {
    /// An end system that is a synchronisation master.
    Master,
    /// An end system that is a synchronisation client.
    Client,
    /// A switch that is its channel's compression master.
    Cm,
    /// A switch that relays.
    Relay,
}

/// A device of the network.
#[derive(Clone, Copy, PartialEq, Eq)]
pub struct Device {
    pub name: Name,
    pub role: Role,
    pub mac: Mac,
    /// The member number, 0 to 31. It is Some exactly for a master.
    pub member: Option<u32>,
    /// The channel. It is Some exactly for a switch.
    pub channel: Option<Channel>,
    /// The local clock at world time 0, from 0 to 2^40. It is None for a device that begins off.
    pub start: Option<Units>,
}

impl Role {
    /// Is this the role of an end system? The others are roles of switches.
    pub fn is_end_system(self) -> bool
        ensures { result ≡ is_end_system self }
    {
        match self {
            Role::Master | Role::Client => true,
            Role::Cm | Role::Relay => false,
        }
    }

    /// Is this the role of a synchronisation master?
    pub fn is_master(self) -> bool
        ensures { result ≡ is_master self }
    {
        match self {
            Role::Master => true,
            Role::Client | Role::Cm | Role::Relay => false,
        }
    }
}

/// A link between two devices, the parent nearer to the compression master.
#[derive(Clone, Copy, PartialEq, Eq)]
pub struct Link {
    pub name: Name,
    pub child: DeviceId,
    pub parent: DeviceId,
    /// The least wire delay, from 1 to 2^40 units of 2^-16 ns.
    pub wire: Units,
    /// How far the wire delay may exceed the least, from 0 to 2^40.
    pub jitter: Units,
    /// The greatest hold, from 0 to 2^40.
    pub hold: Units,
    pub speed: Speed,
}

/// A virtual link: a stream of time-triggered frames from one sender.
#[derive(Clone, Copy, PartialEq, Eq)]
pub struct VirtualLink {
    pub name: Name,
    pub id: u16,
    /// How many octets each frame has, without its check sequence: 60 to 1,514.
    pub length: u16,
    /// 1,536 to 65,535, other than that of protocol control frames.
    pub ethertype: u16,
    pub sender: DeviceId,
    /// It occurs in one cycle of so many, from 1 to 64.
    pub period: u32,
    /// The cycle of a period in which it occurs, from 0 to 63.
    pub phase: u32,
}

/// A row of the schedule: a virtual link's frame goes by this way of this link at this offset.
#[derive(Clone, Copy, PartialEq, Eq)]
pub struct Row {
    pub vl: VlId,
    pub link: LinkId,
    pub way: Way,
    /// The place in the cycle, from 0 to 2^40 units of 2^-16 ns.
    pub offset: Units,
}

/// The devices of a network. A `DeviceId` is a place in this list.
#[derive(Drop)]
pub struct Devices(pub Vec<Device>);

impl Model for Devices {
    ghost use Rattle.std.specs.Prelude.{List};
    ghost use Rattle.net_plan.specs.declared.tables.Device.{Device};

    ghost Value = { List Device };

    ghost view = { λ devices. devices.0.items };
}

impl Devices {
    /// The devices in their order.
    pub fn as_slice(&self) -> &[Device]
        ensures { result.now ≡ self.now }
    {
        &self.0
    }
}

/// The links of a network. A `LinkId` is a place in this list.
#[derive(Drop)]
pub struct Links(pub Vec<Link>);

impl Model for Links {
    ghost use Rattle.std.specs.Prelude.{List};
    ghost use Rattle.net_plan.specs.declared.tables.Link.{Link};

    ghost Value = { List Link };

    ghost view = { λ links. links.0.items };
}

impl Links {
    /// The links in their order.
    pub fn as_slice(&self) -> &[Link]
        ensures { result.now ≡ self.now }
    {
        &self.0
    }
}

/// The virtual links of a network. A `VlId` is a place in this list.
#[derive(Drop)]
pub struct VirtualLinks(pub Vec<VirtualLink>);

impl Model for VirtualLinks {
    ghost use Rattle.std.specs.Prelude.{List};
    ghost use Rattle.net_plan.specs.declared.tables.VirtualLink.{VirtualLink};

    ghost Value = { List VirtualLink };

    ghost view = { λ links. links.0.items };
}

impl VirtualLinks {
    /// The virtual links in their order.
    pub fn as_slice(&self) -> &[VirtualLink]
        ensures { result.now ≡ self.now }
    {
        &self.0
    }
}

/// The rows of a network. A `RowId` is a place in this list.
#[derive(Drop)]
pub struct Rows(pub Vec<Row>);

impl Model for Rows {
    ghost use Rattle.std.specs.Prelude.{List};
    ghost use Rattle.net_plan.specs.declared.tables.Row.{Row};

    ghost Value = { List Row };

    ghost view = { λ rows. rows.0.items };
}

impl Rows {
    /// The rows in their order.
    pub fn as_slice(&self) -> &[Row]
        ensures { result.now ≡ self.now }
    {
        &self.0
    }
}
