//! The way of a virtual link's frames to a receiver by one channel.
ghost use Rattle.std.specs.Prelude.{◌≡◌, ◌↔◌, IfSome, IsTrue};
ghost use Rattle.lens_latency.specs.Trips.{IsFirstOf, IsHop, IsTrip, Joins, trip_of};
ghost use Rattle.{net_plan.specs.Ranges.IsInRange, schedule_tables.specs.Entries.IsEntryInRange};

use net_plan::{DeviceId, Network, RowId, VlId};
use schedule_tables::{Entry, entry_of, window_of};
use tte_units::frames::Channel;

/// How long the frames of a virtual link are on their way to a receiver by a channel, from their dispatch by the sender,
/// and at which places of the receiver's cycle they come, in units of 2^-16 ns.
#[derive(Clone, Copy)]
pub struct Trip {
    pub least: u64,
    pub most: u64,
    pub from: u64,
    pub to: u64,
}

/// A row at one of the two ends of a trip.
#[derive(Clone, Copy)]
pub(crate) enum TripEnd {
    /// The one that leaves the sender.
    First,
    /// The one that enters the receiver.
    Last(DeviceId),
}

/// Is the row at this end?
fn joins(hop: TripEnd, entry: &Entry) -> bool
    ensures { IsTrue result ↔ Joins hop entry.now }
{
    match hop {
        TripEnd::First => entry.source() == entry.vl.sender,
        TripEnd::Last(device) => entry.target() == device,
    }
}

/// Is the row the virtual link's, on the channel, and at this end?
fn is_hop(network: &Network, vl: VlId, channel: Channel, hop: TripEnd, entry: &Entry) -> bool
    ensures { IsTrue result ↔ IsHop network.now vl channel hop entry.now }
{
    entry.row.vl == vl && network.is_switch_of(entry.link.parent, channel) && joins(hop, entry)
}

/// The first row of the virtual link on the channel that is at this end.
fn row_at(network: &Network, vl: VlId, channel: Channel, hop: TripEnd) -> Option<Entry>
    requires { IsInRange network.now }
    ensures first { IsFirstOf network.now (IsHop network.now vl channel hop) result }
    ensures range { IfSome result (IsEntryInRange network.now) }
{
    let rows = network.row.as_slice().len() as u32;
    'rows: for number in 0..rows {
        let entry = entry_of(network, RowId(number));
        if is_hop(network, vl, channel, hop, &entry) {
            return Some(entry);
        }
    }
    None
}

/// The trip that begins with the one row and ends with the other.
fn trip_of(network: &Network, first: &Entry, last: &Entry) -> Trip
    requires range { IsInRange network.now }
    requires first { IsEntryInRange network.now first.now }
    requires last { IsEntryInRange network.now last.now }
    ensures { result ≡ trip_of network.now first.now last.now }
{
    let sent = first.row.offset.amount();
    let tolerance = network.precision.amount() + network.gamma().amount();
    let to = window_of(network, last).to.amount();
    let from = to.saturating_sub(last.link.jitter.amount() + 2 * tolerance);
    Trip {
        least: from.saturating_sub(sent),
        most: to.saturating_sub(sent),
        from,
        to,
    }
}

/// The trip of the virtual link's frames to the device by the channel, if its rows lead there.
pub(crate) fn trip_on(
    network: &Network,
    vl: VlId,
    device: DeviceId,
    channel: Channel,
) -> Option<Trip>
    requires { IsInRange network.now }
    ensures { IsTrip network.now vl device channel result }
{
    let first = row_at(network, vl, channel, TripEnd::First)?;
    let last = row_at(network, vl, channel, TripEnd::Last(device))?;
    Some(trip_of(network, &first, &last))
}
