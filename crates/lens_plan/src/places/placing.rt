//! The places of a message's rows along a way, in a phase.
ghost use Rattle.std.specs.Prelude.{◌+◌, ◌^◌, ◌≡◌, ◌≤◌, All, OnOk, length};
ghost use Rattle.lens_plan.specs.places.Placing.{IsOrdered, IsPlacedAt, IsPlacedWay, IsTrial};
ghost use Rattle.lens_plan.specs.places.Placing.{delay_on, port_on, slot_of};
ghost use Rattle.{lens_plan.specs.places.Ways.Adds, net_plan.specs.Ranges.IsInRange};
ghost use Rattle.schedule_tables.specs.Windows.{tolerance};

use crate::Message;
use crate::places::offsets::{MessageRow, Taken, least_offset};
use crate::places::ways::Hop;
use net_plan::{LinkId, Network};
use tte_io::OutOfMemory;
use tte_units::octets;

/// The octets of a frame that are sent beside its own (IEEE 802.3).
const OVERHEAD: u32 = 24;

/// A row of a message with its place, in units of 2^-16 ns.
#[derive(Clone, Copy)]
pub(crate) struct Placed {
    pub(crate) hop: Hop,
    pub(crate) offset: u64,
    /// The end of its window.
    pub(crate) end: u64,
}

/// A message that is tried in a phase, behind these rows.
#[derive(Clone, Copy)]
pub(crate) struct Trial<'a> {
    pub(crate) network: &'a Network,
    pub(crate) message: &'a Message,
    pub(crate) phase: u32,
    pub(crate) gamma: u64,
    /// The precision and gamma.
    pub(crate) tolerance: u64,
    pub(crate) rows: &'a [Taken],
}

/// How long a frame of so many octets is on the port of the link.
pub(crate) fn port_on(network: &Network, length: u16, link: LinkId) -> u64
    requires { length ≤ 1514 }
    ensures value { result ≡ port_on network.now length link }
    ensures bound { result ≤ 2 ^ 40 }
{
    match network.link.as_slice().get(link.0 as usize) {
        Some(found) => octets(found.speed, u32::from(length) + OVERHEAD).amount(),
        None => 0,
    }
}

/// The greatest wire delay of the link.
fn delay_on(network: &Network, link: LinkId) -> u64
    requires { IsInRange network.now }
    ensures value { result ≡ delay_on network.now link }
    ensures bound { result ≤ 2 ^ 41 }
{
    match network.link.as_slice().get(link.0 as usize) {
        Some(found) => found.wire.amount() + found.jitter.amount(),
        None => 0,
    }
}

/// The row of the hop.
fn slot_of(trial: &Trial<'_>, hop: Hop) -> MessageRow
    requires { IsTrial trial.now }
    ensures value { result ≡ slot_of trial.now hop }
    ensures port { result.port ≤ 2 ^ 40 }
{
    let message = trial.message;
    MessageRow {
        link: hop.link,
        way: hop.way,
        period: message.period,
        phase: trial.phase,
        port: port_on(trial.network, message.length, hop.link),
    }
}

/// The precision and gamma of the trial.
fn tolerance_of(trial: &Trial<'_>) -> u64
    requires { IsTrial trial.now }
    ensures value { result ≡ tolerance trial.now.network.now }
    ensures bound { result ≤ 2 ^ 43 }
{
    trial.tolerance
}

/// The row with the least offset from this one on.
fn placed_at(trial: &Trial<'_>, from: u64, hop: Hop) -> Placed
    requires trial { IsTrial trial.now }
    requires from { from ≤ 2 ^ 59 }
    ensures is { IsPlacedAt trial.now from hop result }
    ensures bound { result.end + 1 ≤ from + 2 ^ 45 }
    ensures ordered { IsOrdered result }
{
    let slot = slot_of(trial, hop);
    let offset = least_offset(trial.gamma, &slot, from, trial.rows);
    let end = offset + slot.port + delay_on(trial.network, hop.link) + tolerance_of(trial);
    Placed { hop, offset, end }
}

/// Adds the rows of a way: each has the least offset behind the window of the one before, the first from this one on.
pub(crate) fn place_way(
    trial: &Trial<'_>,
    start: u64,
    hops: &[Hop],
    placed: &mut Vec<Placed>,
) -> Result<(), OutOfMemory>
    requires trial { IsTrial trial.now }
    requires start { start ≤ 2 ^ 41 }
    requires hops { length hops.now ≤ 64 }
    requires ordered { All IsOrdered placed.old.items }
    ensures way { OnOk result (Adds (IsPlacedWay trial.now start hops.now) placed.old.items placed.new.items) }
    ensures ordered { OnOk result (All IsOrdered placed.new.items) }
{
    let mut from = start;
    'hops: for hop in hops {
        let place = placed_at(trial, from, *hop);
        from = place.end + 1;
        match placed.push(place) {
            Ok(()) => (),
            Err(_) => return Err(OutOfMemory),
        }
    }
    Ok(())
}
