ghost use Rattle.std.specs.Prelude.{◌*◌, ◌^◌, ◌≡◌, ◌≤◌};
ghost use Rattle.net_plan.specs.Ranges.{IsInRange, IsWithin};
ghost use Rattle.schedule_tables.specs.{Entries.IsEntryInRange, Windows.{arrival_of, tolerance, window_of}};

use crate::Entry;
use net_plan::Network;
use tte_units::Units;

/// The places in a receiver's cycle at which a frame may arrive, both ends included, in units of
/// 2^-16 ns.
#[derive(Clone, Copy, Debug, PartialEq, Eq)]
pub struct Window {
    pub from: Units,
    pub to: Units,
}

/// The window of an entry: from its arrival over the least wire delay, less the precision and
/// gamma, to its arrival over the greatest, and as much more.
///
/// The numbers of the network and of the entry lie in their ranges.
pub fn window_of(network: &Network, entry: &Entry) -> Window
    requires range { IsInRange network.now }
    requires entry { IsEntryInRange network.now entry.now }
    ensures { result ≡ window_of network.now entry.now }
{
    let arrival = arrival_of(entry);
    let tolerance = tolerance(network);
    Window {
        from: Units(arrival as i64 - tolerance as i64),
        to: Units((arrival + entry.link.jitter.amount() + tolerance) as i64),
    }
}

/// The place in the sender's cycle at which the frame has arrived, over the least wire delay, in
/// units of 2^-16 ns.
///
/// The numbers of the entry lie in their ranges.
pub fn arrival_of(entry: &Entry) -> u64
    requires offset { IsWithin 0 (2 ^ 40) entry.now.row.offset }
    requires octets { entry.now.vl.length ≤ 1514 }
    requires wire { IsWithin 1 (2 ^ 40) entry.now.link.wire }
    ensures value { result ≡ arrival_of entry.now }
    ensures bound { result ≤ 2 ^ 43 }
{
    entry.row.offset.amount() + entry.port_time().amount() + entry.link.wire.amount()
}

/// The precision and gamma: how far the clocks of two devices may differ, in units of 2^-16 ns.
///
/// The numbers of the network lie in their ranges.
pub fn tolerance(network: &Network) -> u64
    requires { IsInRange network.now }
    ensures value { result ≡ tolerance network.now }
    ensures bound { result ≤ 2 ^ 41 }
{
    network.precision.amount() + network.gamma().amount()
}
