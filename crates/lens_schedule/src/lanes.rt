//! The ports that have rows, each with its lane.
ghost use Rattle.std.specs.{List.list_any, Prelude.{◌*◌, ◌++◌, ◌/◌, ◌<◌, ◌^◌, ◌≡◌, ◌≤◌, All, IfOk, OnOk, length}};
ghost use Rattle.lens_schedule.specs.Lanes.{busy_by, busy_time, column_at, column_by, column_in, column_of, lane_at};
ghost use Rattle.lens_schedule.specs.Lanes.{lane_of, lanes_before, lanes_of, leaves_by, load_of, port_number, way_of};
ghost use Rattle.net_plan.specs.Ranges.{IsInRange};
ghost use Rattle.schedule_tables.specs.Entries.{IsEntryInRange};

use crate::frames::port_time;
use net_plan::{DeviceId, LinkId, Network, Way};
use schedule_tables::Entry;
use std::alloc::{AllocError, Global};
use tte_units::frames::Channel;

/// A port that has rows: how far to the right the column of its channel begins, in pixels, and how busy it is, in
/// hundredths of a percent.
#[derive(Clone, Copy)]
pub struct Lane {
    pub link: LinkId,
    pub way: Way,
    pub column: u64,
    pub load: u64,
}

/// The number of a port in the order of the lanes: by its link, the way up first.
pub(crate) fn port_number(link: LinkId, way: Way) -> u64
    ensures value { result ≡ port_number link way }
    ensures bound { result ≤ 2 ^ 33 }
{
    match way {
        Way::Up => 2 * u64::from(link.0),
        Way::Down => 2 * u64::from(link.0) + 1,
    }
}

/// The way of the port of this number.
fn way_of(port: u64) -> Way
    ensures { result ≡ way_of port }
{
    if port % 2 == 0 { Way::Up } else { Way::Down }
}

/// Where the column of a channel begins.
pub(crate) fn column_of(channel: Channel) -> u64
    ensures value { result ≡ column_of channel }
    ensures bound { result ≤ 950 }
{
    match channel {
        Channel::A => 0,
        Channel::B => 950,
    }
}

fn column_in(channel: Option<Channel>) -> u64
    ensures { result ≡ column_in channel }
{
    match channel {
        Some(channel) => column_of(channel),
        None => 0,
    }
}

/// Where the column of the device's channel begins.
fn column_at(network: &Network, device: DeviceId) -> u64
    ensures { result ≡ column_at network.now device }
{
    match network.device.as_slice().get(device.0 as usize) {
        Some(found) => column_in(found.channel),
        None => 0,
    }
}

/// Where the column of the link's channel begins.
pub(crate) fn column_by(network: &Network, link: LinkId) -> u64
    ensures { result ≡ column_by network.now link }
{
    match network.link.as_slice().get(link.0 as usize) {
        Some(found) => column_at(network, found.parent),
        None => 0,
    }
}

/// Does the row leave by the port?
fn leaves_by(port: u64, entry: &Entry) -> bool
    ensures { result ≡ leaves_by port entry.now }
{
    port_number(entry.row.link, entry.row.way) == port
}

/// Does a row leave by the port?
fn is_used(port: u64, entries: &[Entry]) -> bool
    ensures { result ≡ list_any (leaves_by port) entries.now }
{
    entries.iter().any(|entry| leaves_by(port, entry))
}

/// How often something of this period comes in 64 cycles.
fn times_of(period: u64) -> u64
    requires { 1 ≤ period }
    ensures value { result ≡ 64 / period }
    ensures bound { result ≤ 64 }
{
    64 / period
}

/// How long the row's frames occupy the port in 64 cycles.
#[tactic(auto, using(crate::proofs::Bounds::product_small))]
fn busy_by(network: &Network, port: u64, entry: &Entry) -> u64
    requires { IsEntryInRange network.now entry.now }
    ensures value { result ≡ busy_by port entry.now }
    ensures bound { result ≤ 2 ^ 39 }
{
    if leaves_by(port, entry) {
        port_time(network, entry) * times_of(entry.vl.period.into())
    } else {
        0
    }
}

/// How long frames occupy the port in 64 cycles.
fn busy_time(network: &Network, port: u64, entries: &[Entry]) -> u64
    requires range { IsInRange network.now }
    requires rows { All (IsEntryInRange network.now) entries.now }
    requires few { length entries.now ≤ 1024 }
    ensures value { result ≡ busy_time port entries.now }
    ensures bound { result ≤ 2 ^ 49 }
{
    let mut busy = 0;
    'entries: for entry in entries {
        busy += busy_by(network, port, entry);
    }
    busy
}

/// The part of 64 cycles that this is, in hundredths of a percent, rounded to the nearest.
fn load_of(network: &Network, busy: u64) -> u64
    requires range { IsInRange network.now }
    requires bound { busy ≤ 2 ^ 49 }
    ensures { result ≡ load_of network.now busy }
{
    let cycles = 64 * network.cycle.amount();
    (20_000 * busy + cycles) / (2 * cycles)
}

/// The port of this number.
fn lane_of(network: &Network, entries: &[Entry], port: u64) -> Lane
    requires range { IsInRange network.now }
    requires rows { All (IsEntryInRange network.now) entries.now }
    requires few { length entries.now ≤ 1024 }
    requires port { port < 2 ^ 33 }
    ensures { result ≡ lane_of network.now entries.now port }
{
    let link = LinkId((port / 2) as u32);
    Lane {
        link,
        way: way_of(port),
        column: column_by(network, link),
        load: load_of(network, busy_time(network, port, entries)),
    }
}

/// Adds the port, if a row leaves by it.
fn push_lane(
    lanes: &mut Vec<Lane>,
    network: &Network,
    entries: &[Entry],
    port: u64,
) -> Result<(), AllocError>
    requires range { IsInRange network.now }
    requires rows { All (IsEntryInRange network.now) entries.now }
    requires few { length entries.now ≤ 1024 }
    requires port { port < 2 ^ 33 }
    ensures { OnOk result (lanes.new.items ≡ lanes.old.items ++ lane_at network.now entries.now port) }
{
    if is_used(port, entries) {
        lanes.push(lane_of(network, entries, port))?;
    }
    Ok(())
}

/// The ports that have rows, in the order of their links.
pub(crate) fn lanes_of(
    alloc: Global,
    network: &Network,
    entries: &[Entry],
) -> Result<Vec<Lane>, AllocError>
    requires range { IsInRange network.now }
    requires rows { All (IsEntryInRange network.now) entries.now }
    requires few { length entries.now ≤ 1024 }
    ensures lanes { IfOk result (λ lanes. lanes.items ≡ lanes_of network.now entries.now) }
    ensures few { IfOk result (λ lanes. length lanes.items ≤ 2 * length network.now.link) }
{
    let mut lanes = Vec::new(alloc);
    let ports = 2 * network.link.as_slice().len() as u64;
    'ports: for port in 0..ports {
        push_lane(&mut lanes, network, entries, port)?;
    }
    Ok(lanes)
}

/// How many lanes of the column are before the port of this number.
pub(crate) fn lanes_before(lanes: &[Lane], column: u64, port: u64) -> u64
    ensures value { result ≡ lanes_before lanes.now column port }
    ensures few { result ≤ length lanes.now }
{
    let mut count = 0;
    'lanes: for lane in lanes {
        if lane.column == column && port_number(lane.link, lane.way) < port {
            count += 1;
        }
    }
    count
}
