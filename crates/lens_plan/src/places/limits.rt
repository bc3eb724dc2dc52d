//! Whether a network may have as many virtual links and rows as messages want.
ghost use Rattle.std.specs.Prelude.{◌++◌, ◌<◌, ◌≡◌, ◌≤◌, All, IfNone, IfOk, IfSome, OnOk, length};
ghost use Rattle.std.specs.{List.count_by, Option.option_to_list};
ghost use Rattle.lens_plan.specs.places.{Fitting.IsAsked, Limits.{AreHops, AreLimits, AreNotCrowded, AreWays}};
ghost use Rattle.lens_plan.specs.places.Limits.{IsCrowded, hop_by_link, hop_leaves, once, rows_from, rows_wanted};
ghost use Rattle.net_plan.specs.{Paths.IsTree, Ranges.IsInRange};
ghost use Rattle.schedule_tables.specs.Schedule.{leaves};

use crate::Message;
use crate::places::ways::{Hop, push_way};
use net_plan::{DeviceId, LinkId, Network, Way};
use std::alloc::Global;
use tte_io::OutOfMemory;
use tte_units::frames::Channel;

/// How many virtual links a network has at most.
const MOST_LINKS: usize = 64;

/// How many rows it has at most.
const MOST_ROWS: usize = 1024;

/// How many rows leave a device at most.
const MOST_FROM: usize = 256;

/// What there would be more of than a network may have.
#[derive(Clone, Copy)]
pub(crate) enum Excess {
    /// So many virtual links, where 64 may be.
    VirtualLinks(u64),
    /// So many rows, where 1,024 may be.
    Rows(u64),
    /// So many rows that leave the device, where 256 may. It is the first such device.
    RowsOf(DeviceId, u64),
}

/// Adds the item, if there is one.
pub(crate) fn push_some<T: Copy>(items: &mut Vec<T>, item: Option<T>) -> Result<(), OutOfMemory>
    ensures { OnOk result (items.new.items ≡ items.old.items ++ option_to_list item) }
{
    match item {
        Some(item) => match items.push(item) {
            Ok(()) => Ok(()),
            Err(_) => Err(OutOfMemory),
        },
        None => Ok(()),
    }
}

/// The hops of the ways to all receivers by both channels.
fn ways_of(alloc: Global, network: &Network, message: &Message) -> Result<Vec<Hop>, OutOfMemory>
    requires range { IsInRange network.now }
    requires tree { IsTree network.now }
    requires asked { IsAsked network.now message.now }
    ensures { IfOk result (λ hops. AreWays network.now message.now.sender message.now.receivers hops.items) }
{
    let mut hops = Vec::new(alloc);
    'receivers: for receiver in message.receivers() {
        match push_way(network, message.sender, *receiver, Channel::A, &mut hops) {
            Ok(()) => (),
            Err(OutOfMemory) => return Err(OutOfMemory),
        }
        match push_way(network, message.sender, *receiver, Channel::B, &mut hops) {
            Ok(()) => (),
            Err(OutOfMemory) => return Err(OutOfMemory),
        }
    }
    Ok(hops)
}

/// The first of the hops by the link.
fn hop_by_link(hops: &[Hop], link: LinkId) -> Option<Hop>
    ensures { result ≡ hop_by_link hops.now link.0 }
{
    hops.iter().copied().find(|hop| hop.link.0 == link.0)
}

/// Adds of the hops one for each link that they go by, in the order of links.
fn push_once(network: &Network, ways: &[Hop], hops: &mut Vec<Hop>) -> Result<(), OutOfMemory>
    requires { IsInRange network.now }
    ensures { OnOk result (hops.new.items ≡ hops.old.items ++ once network.now ways.now) }
{
    let count = network.link.as_slice().len() as u32;
    'links: for link in 0..count {
        match push_some(hops, hop_by_link(ways, LinkId(link))) {
            Ok(()) => (),
            Err(OutOfMemory) => return Err(OutOfMemory),
        }
    }
    Ok(())
}

/// The hops by which the messages go, each message by a link once.
fn hops_of(alloc: Global, network: &Network, messages: &[Message]) -> Result<Vec<Hop>, OutOfMemory>
    requires range { IsInRange network.now }
    requires tree { IsTree network.now }
    requires asked { All (IsAsked network.now) messages.now }
    ensures { IfOk result (λ hops. AreHops network.now messages.now hops.items) }
{
    let mut hops = Vec::new(alloc);
    'messages: for message in messages {
        let ways = match ways_of(alloc, network, message) {
            Ok(ways) => ways,
            Err(OutOfMemory) => return Err(OutOfMemory),
        };
        match push_once(network, ways.as_slice(), &mut hops) {
            Ok(()) => (),
            Err(OutOfMemory) => return Err(OutOfMemory),
        }
    }
    Ok(hops)
}

/// Does a row by the way of the link leave the device?
fn leaves(network: &Network, device: DeviceId, link: LinkId, way: Way) -> bool
    ensures { result ≡ hop_leaves network.now device (record { link = link; way = way }) }
{
    match network.link.as_slice().get(link.0 as usize) {
        Some(link) => match way {
            Way::Up => link.child.0 == device.0,
            Way::Down => link.parent.0 == device.0,
        },
        None => false,
    }
}

/// How many rows of the network leave the device.
fn count_there(network: &Network, device: DeviceId) -> usize
    ensures { result ≡ count_by (leaves network.now device) network.now.row }
{
    network
        .row
        .as_slice()
        .iter()
        .filter(|row| leaves(network, device, row.link, row.way))
        .count()
}

/// How many of the hops leave the device.
fn count_hops(network: &Network, hops: &[Hop], device: DeviceId) -> usize
    ensures { result ≡ count_by (hop_leaves network.now device) hops.now }
{
    hops.iter()
        .filter(|hop| leaves(network, device, hop.link, hop.way))
        .count()
}

/// How many rows leave the device: those of the network, and those of the hops.
fn rows_from(network: &Network, hops: &[Hop], device: DeviceId) -> usize
    requires { rows_wanted network.now hops.now ≤ 1024 }
    ensures { result ≡ rows_from network.now hops.now device }
{
    count_there(network, device) + count_hops(network, hops, device)
}

/// The first device that too many rows leave, with how many they are.
fn crowded_device(network: &Network, hops: &[Hop]) -> Option<(DeviceId, u64)>
    requires range { IsInRange network.now }
    requires few { rows_wanted network.now hops.now ≤ 1024 }
    ensures first { IfSome result (λ it. IsCrowded network.now hops.now it.0 it.1) }
    ensures none { IfNone result (AreNotCrowded network.now hops.now) }
{
    let count = network.device.as_slice().len() as u32;
    'devices: for place in 0..count {
        let device = DeviceId(place);
        let rows = rows_from(network, hops, device);
        if rows > MOST_FROM {
            return Some((device, rows as u64));
        }
    }
    None
}

/// What there would be more of than the network may have, with virtual links and rows of all messages: first virtual
/// links, then rows, then rows that leave a device.
pub(crate) fn excess_of(
    alloc: Global,
    network: &Network,
    messages: &[Message],
) -> Result<Option<Excess>, OutOfMemory>
    requires range { IsInRange network.now }
    requires tree { IsTree network.now }
    requires asked { All (IsAsked network.now) messages.now }
    ensures { IfOk result (AreLimits network.now messages.now) }
{
    let links = network.vl.as_slice().len() + messages.len();
    if links > MOST_LINKS {
        return Ok(Some(Excess::VirtualLinks(links as u64)));
    }
    let hops = match hops_of(alloc, network, messages) {
        Ok(hops) => hops,
        Err(OutOfMemory) => return Err(OutOfMemory),
    };
    let rows = network.row.as_slice().len() + hops.len();
    if rows > MOST_ROWS {
        return Ok(Some(Excess::Rows(rows as u64)));
    }
    match crowded_device(network, hops.as_slice()) {
        Some((device, rows)) => Ok(Some(Excess::RowsOf(device, rows))),
        None => Ok(None),
    }
}
