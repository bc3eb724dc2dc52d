ghost use Rattle.std.specs.Prelude.{◌<◌, ◌≡◌, IfOk, length, map};
ghost use Rattle.{net_plan.specs.Ranges.{IsInRange, IsLinkInRange}, switch_ports.specs.Sites.{port_in, port_of}};
ghost use Rattle.{schedule_tables.specs.Schedule.IsSwitch, tte_units.specs.Amount.units_of};
ghost use Rattle.switch_ports.specs.Sites.{IsSiteOf, expected_in, is_below, is_other_member, peer_below, peer_of};

use device_rules::frames::integration_frame;
use net_plan::{DeviceId, Link, LinkId, Network, Role};
use schedule_tables::OutOfMemory;
use std::alloc::{AllocError, Global};
use sync_state::SyncPlan;
use sync_state::membership::one;
use tte_units::Units;
use tte_units::frames::{Channel, Members, Pcf};

/// What stands at the other end of a link.
#[derive(Clone, Copy)]
pub enum Peer {
    /// The switch's parent.
    Parent,
    /// A switch below.
    Switch,
    /// A master below, whose bit this is.
    Master(Members),
    /// A client below.
    Client,
}

/// What the network says of a link, as it is seen from the switch.
#[derive(Clone, Copy)]
pub struct Port {
    pub peer: Peer,
    /// The nominal delay of the wire.
    pub wire: Units,
    /// The channel of the link, which is that of its parent.
    pub channel: Option<Channel>,
}

/// What the network says of a switch.
#[derive(Drop)]
pub struct Site {
    /// Is it a relay? Otherwise it is a compression master.
    pub is_relay: bool,
    pub channel: Channel,
    /// The frame that it sends where it is a compression master, as that of cycle 0 and of no members.
    pub frame: Pcf,
    pub plan: SyncPlan,
    pub dmax: Units,
    pub precision: Units,
    pub correction: Units,
    pub calc: Units,
    pub marker: u32,
    /// All links of the network, in its order.
    pub ports: Vec<Port>,
}

impl Peer {
    /// Does the link lead down to a device below?
    pub(crate) fn is_below(self) -> bool
        ensures { result ≡ is_below self }
    {
        match self {
            Peer::Parent => false,
            Peer::Switch | Peer::Master(_) | Peer::Client => true,
        }
    }

    /// Are these members other than those that the peer sends? A switch may send any.
    pub(crate) fn is_other_member(self, members: Members) -> bool
        ensures { result ≡ is_other_member self members }
    {
        match self {
            Peer::Parent | Peer::Switch => false,
            Peer::Master(own) => members.0 != own.0,
            Peer::Client => true,
        }
    }
}

impl Site {
    /// What the network says of the switch.
    pub(crate) fn new(
        alloc: Global,
        network: &Network,
        device: DeviceId,
    ) -> Result<Site, OutOfMemory>
        requires range { IsInRange network.now }
        requires switch { IsSwitch network.now device }
        ensures { IfOk result (IsSiteOf network.now device) }
    {
        let ports = ports_of(alloc, network, device)?;
        let switch = &network.device.as_slice()[device.0 as usize];
        Ok(Site {
            is_relay: switch.role == Role::Relay,
            channel: switch.channel.unwrap_or(Channel::A),
            frame: integration_frame(network, device, 0, Members(0)),
            plan: SyncPlan {
                cycle_length: network.cycle,
                expected: expected_in(network, switch.role),
                threshold: network.sync_threshold,
            },
            dmax: network.dmax,
            precision: network.precision,
            correction: network.correction,
            calc: network.calc,
            marker: network.marker,
            ports,
        })
    }

    /// What the network says of the link.
    pub(crate) fn port(&self, link: LinkId) -> Port
        ensures { result ≡ port_in self.now.ports.items link }
    {
        match self.ports.get(link.0 as usize) {
            Some(port) => *port,
            None => Port {
                peer: Peer::Parent,
                wire: Units(0),
                channel: None,
            },
        }
    }
}

/// When a switch of this role expects a compressed frame, from the beginning of its cycle.
fn expected_in(network: &Network, role: Role) -> Units
    requires { IsInRange network.now }
    ensures { result ≡ units_of (expected_in network.now role) }
{
    let dmax = network.dmax.amount();
    let compression = 2 * network.precision.amount() + network.calc.amount();
    match role {
        Role::Cm => Units::from_amount(dmax + compression),
        Role::Relay | Role::Master | Role::Client => Units::from_amount(2 * dmax + compression),
    }
}

/// All links of the network, as they are seen from the device.
fn ports_of(alloc: Global, network: &Network, device: DeviceId) -> Result<Vec<Port>, AllocError>
    requires { IsInRange network.now }
    ensures { IfOk result (λ ports. ports.items ≡ map (port_of network.now device) network.now.link) }
{
    let mut ports = Vec::new(alloc);
    for link in network.link.as_slice() {
        ports.push(port_of(network, device, link))?;
    }
    Ok(ports)
}

fn port_of(network: &Network, device: DeviceId, link: &Link) -> Port
    requires range { IsInRange network.now }
    requires link { IsLinkInRange network.now link.now }
    ensures { result ≡ port_of network.now device link.now }
{
    Port {
        peer: peer_of(network, device, link),
        wire: link.wire,
        channel: network.device.as_slice()[link.parent.0 as usize].channel,
    }
}

fn peer_of(network: &Network, device: DeviceId, link: &Link) -> Peer
    requires range { IsInRange network.now }
    requires link { IsLinkInRange network.now link.now }
    ensures { result ≡ peer_of network.now device link.now }
{
    if link.parent.0 == device.0 {
        peer_below(network, link.child)
    } else {
        Peer::Parent
    }
}

fn peer_below(network: &Network, child: DeviceId) -> Peer
    requires range { IsInRange network.now }
    requires there { child.0 < length network.now.device }
    ensures { result ≡ peer_below network.now child }
{
    let device = &network.device.as_slice()[child.0 as usize];
    if !device.role.is_end_system() {
        return Peer::Switch;
    }
    match device.member {
        Some(member) if member < 32 => Peer::Master(one(member)),
        Some(_) | None => Peer::Client,
    }
}
