//! What a device dispatches as the sender of a virtual link.

ghost use Rattle.std.specs.Prelude.{◌^◌, ◌↔◌, ◌≡◌, ◌≤◌, IsTrue, List, ℕ};
ghost use Rattle.{audit_devices.specs.Showing.Shows, audit_law.specs.events.Remembering.{Remembers, RemembersSome}};
ghost use Rattle.{audit_devices.specs.clocks.Finding.IsSeries, audit_sweep.specs.records.dispatches.Exits.AreExits};
ghost use Rattle.{audit_law.specs.events.Readings.{clock_reading, scenario_under}, net_plan.specs.Belonging.HasDevice};
ghost use Rattle.audit_sweep.specs.records.dispatches.{Leavings.IsRowFit, Sent.{SendsBy, SendsBySome, SendsSome}};
ghost use Rattle.audit_sweep.specs.records.dispatches.Sent.{AreFoundByNumber, AreRowsFit, CrossesSome, ReachesSome};
ghost use Rattle.{net_plan.specs.Ranges.IsInRange, run_law.specs.records.Happenings.{Happening, earlier}};
ghost use Rattle.net_plan.specs.declared.{event.Event.Event, network.Network.{Network as NetworkValue}};

use crate::records::dispatches::{Exits, LeavingRow};
use audit_devices::Shown;
use audit_devices::clocks::{DeviceMoment, Series, is_up, next_crossing};
use audit_law::events::{EventHistory, reading_law};
use net_plan::{DeviceId, LinkId, Network};

/// Does the device, as a sender, dispatch a frame on the link at the time, up to 2^60? This is what the records of
/// earlier times show.
pub fn sends_some(
    network: &Network,
    events: &EventHistory,
    exits: &Exits,
    device: DeviceId,
    shown: &Shown,
    link: LinkId,
    time: u64,
) -> bool
    requires range { IsInRange network.now }
    requires some { RemembersSome events.now }
    requires exits { AreExits network.now exits.now }
    requires limit { time ≤ 2 ^ 60 }
    ensures { (befallen : List Event) (hs : List Happening) → Remembers network.now befallen events.now
        → HasDevice network.now device
        → Shows (scenario_under network.now befallen) (earlier time hs) device shown.now → AreFoundByNumber hs
        → IsTrue result ↔ SendsSome (scenario_under network.now befallen) hs device time link }
{
    is_up(shown, DeviceMoment::of(events, device, time))
        && sends_by_some(network, events, exits.on(link), device, shown, time)
}

/// Does it by one of the rows?
fn sends_by_some(
    network: &Network,
    events: &EventHistory,
    rows: &[LeavingRow],
    device: DeviceId,
    shown: &Shown,
    time: u64,
) -> bool
    requires range { IsInRange network.now }
    requires some { RemembersSome events.now }
    requires rows { AreRowsFit rows.now }
    requires limit { time ≤ 2 ^ 60 }
    ensures { (befallen : List Event) (hs : List Happening) → Remembers network.now befallen events.now
        → HasDevice network.now device
        → Shows (scenario_under network.now befallen) (earlier time hs) device shown.now
        → IsTrue result ↔ SendsBySome (scenario_under network.now befallen) network.now hs device time rows.now }
{
    for row in rows {
        if sends_by(network, events, row, device, shown, time) {
            return true;
        }
    }
    false
}

/// Does it by the row?
fn sends_by(
    network: &Network,
    events: &EventHistory,
    row: &LeavingRow,
    device: DeviceId,
    shown: &Shown,
    time: u64,
) -> bool
    requires range { IsInRange network.now }
    requires some { RemembersSome events.now }
    requires row { IsRowFit row.now }
    requires limit { time ≤ 2 ^ 60 }
    ensures { (befallen : List Event) (hs : List Happening) → Remembers network.now befallen events.now
        → HasDevice network.now device
        → Shows (scenario_under network.now befallen) (earlier time hs) device shown.now
        → IsTrue result ↔ SendsBy (scenario_under network.now befallen) network.now hs device time row.now }
{
    if row.device.0 != device.0 || row.sender.0 != device.0 {
        return false;
    }
    reaches_some(network, events, row, device, shown, time)
}

/// Does the device's clock reach the row's place in a cycle in which its virtual link occurs?
fn reaches_some(
    network: &Network,
    events: &EventHistory,
    row: &LeavingRow,
    device: DeviceId,
    shown: &Shown,
    time: u64,
) -> bool
    requires range { IsInRange network.now }
    requires some { RemembersSome events.now }
    requires row { IsRowFit row.now }
    requires limit { time ≤ 2 ^ 60 }
    ensures { (befallen : List Event) (hs : List Happening) → Remembers network.now befallen events.now
        → HasDevice network.now device
        → Shows (scenario_under network.now befallen) (earlier time hs) device shown.now
        → IsTrue result ↔ ReachesSome (scenario_under network.now befallen) network.now hs device time row.now }
{
    reading_law();
    match row.leavings(network) {
        Some(series) => crosses_some(events, device, shown, series, time),
        None => false,
    }
}

/// Does the device's clock cross a value of the series at the time?
fn crosses_some(
    events: &EventHistory,
    device: DeviceId,
    shown: &Shown,
    series: Series,
    time: u64,
) -> bool
    requires some { RemembersSome events.now }
    requires series { IsSeries series }
    requires limit { time ≤ 2 ^ 60 }
    ensures { (network : NetworkValue) (befallen : List Event) → Remembers network befallen events.now
        → HasDevice network device
        → IsTrue result ↔ CrossesSome (clock_reading network befallen device) shown.now series time }
{
    next_crossing(events, device, shown, time.saturating_sub(1), time, series).is_some()
}
