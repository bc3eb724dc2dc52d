ghost use Rattle.std.specs.Prelude.{◌+◌, ◌<◌, ◌^◌, ◌↔◌, ◌≡◌, ◌≤◌, IsTrue, List, false, length, ℕ};
ghost use Rattle.audit_devices.specs.{Keeping.device_count, clocks.{Finding.{IsSeries, value_in}, Points.ComesTo}};
ghost use Rattle.{audit_devices.specs.Showing.Shows, net_plan.specs.{Belonging.HasDevice, Ranges.IsInRange}};
ghost use Rattle.{audit_law.specs.events.Readings.scenario_under, audit_sweep.specs.records.places.Placing.ArePlacesOf};
ghost use Rattle.{audit_law.specs.law.DueRecords.IsDue, run_law.specs.{records.Ranks.place_of, runs.Runs.IsFounded}};
ghost use Rattle.{audit_law.specs.law.FirstDebts.TellsFirst, run_law.specs.scenario.Scenarios.Scenario};
ghost use Rattle.audit_sweep.specs.unpaid.points.{FirstUnpaid.TellsFirstUnpaid, Kept.{IsKept, IsSomeKept}};
ghost use Rattle.audit_devices.specs.Lasting.{ShowsWithin};
ghost use Rattle.audit_sweep.specs.unpaid.points.Told.{AreOfDevices, IsTold, OwesAt};
ghost use Rattle.{audit_sweep.specs.unpaid.Sorts.IsPointDebt, net_plan.specs.declared.event.Event.Event};
ghost use Rattle.run_law.specs.{control.Corrections.correction_value, records.Happenings.{Happening, earlier}};
ghost use Rattle.sync_state.specs.declared.answers.Verdict.{TheVariants.Cleared, Verdict};

use crate::records::places::Places;
use crate::unpaid::earlier_of;
use audit_devices::clocks::{DeviceMoment, Point, Series, coming_point, next_crossing};
use audit_devices::{Shown, Standings};
use audit_law::events::EventHistory;
use device_rules::{PointVerdict, correction_value};
use net_plan::{DeviceId, Network};
use run_law::plain::{Place, Rank};

/// The first time up to `until` at which a device of the network has a correction point, not only to clear, and no
/// record tells what it came to. `until` is at most 2^60; the records are founded, and of devices of the network.
pub fn first_untold(
    network: &Network,
    events: &EventHistory,
    standings: &Standings,
    places: &Places,
    until: u64,
) -> Option<u64>
    requires range { IsInRange network.now }
    requires count { device_count standings.now ≡ length network.now.device }
    requires kept { IsSomeKept network.now events.now standings.now places.now }
    requires limit { until ≤ 2 ^ 60 }
    ensures { (befallen : List Event) (hs : List Happening)
        → IsKept network.now befallen hs events.now standings.now places.now
        → IsFounded place_of (IsDue (scenario_under network.now befallen)) hs
        → AreOfDevices network.now hs
        → TellsFirst (scenario_under network.now befallen) hs until IsPointDebt result }
{
    let mut first = None;
    'devices: for place in 0..network.device.as_slice().len() {
        let device = DeviceId(place as u32);
        let untold = first_untold_by(network, events, standings, places, device, until);
        first = earlier_of(first, untold);
    }
    first
}

/// The same of one device.
fn first_untold_by(
    network: &Network,
    events: &EventHistory,
    standings: &Standings,
    places: &Places,
    device: DeviceId,
    until: u64,
) -> Option<u64>
    requires range { IsInRange network.now }
    requires device { HasDevice network.now device }
    requires count { device_count standings.now ≡ length network.now.device }
    requires kept { IsSomeKept network.now events.now standings.now places.now }
    requires limit { until ≤ 2 ^ 60 }
    ensures { (befallen : List Event) (hs : List Happening)
        → IsKept network.now befallen hs events.now standings.now places.now
        → IsFounded place_of (IsDue (scenario_under network.now befallen)) hs
        → TellsFirstUnpaid (OwesAt (scenario_under network.now befallen) hs device)
        (IsTold (scenario_under network.now befallen) hs device) 0 until result }
{
    let mut after = 0;
    'stretches: while after < until {
        let (shown, end) = standings.after_time(device, after, until);
        let untold = first_untold_within(
            network, events, standings, places, device, shown, after, end,
        );
        if untold.is_some() {
            return untold;
        }
        after = end;
    }
    None
}

/// The same later than `after`, where this is shown of the device.
fn first_untold_within(
    network: &Network,
    events: &EventHistory,
    standings: &Standings,
    places: &Places,
    device: DeviceId,
    shown: &Shown,
    after: u64,
    until: u64,
) -> Option<u64>
    requires range { IsInRange network.now }
    requires device { HasDevice network.now device }
    requires count { device_count standings.now ≡ length network.now.device }
    requires kept { IsSomeKept network.now events.now standings.now places.now }
    requires limit { until ≤ 2 ^ 60 }
    ensures { (befallen : List Event) (hs : List Happening)
        → IsKept network.now befallen hs events.now standings.now places.now
        → IsFounded place_of (IsDue (scenario_under network.now befallen)) hs
        → ShowsWithin (scenario_under network.now befallen) hs device after until shown.now
        → TellsFirstUnpaid (OwesAt (scenario_under network.now befallen) hs device)
        (IsTold (scenario_under network.now befallen) hs device) after until result }
{
    let series = correction_points(network, shown);
    let mut from = after;
    'points: while let Some(crossed) = next_crossing(events, device, shown, from, until, series) {
        if is_untold(
            network,
            events,
            standings,
            places,
            device,
            shown,
            crossed.time,
        ) {
            return Some(crossed.time);
        }
        from = crossed.time;
    }
    None
}

/// The values at which the device's clock comes to correction points.
fn correction_points(network: &Network, shown: &Shown) -> Series
    requires { IsInRange network.now }
    ensures series { IsSeries result }
    ensures values { (n : ℕ) → value_in result n ≡ correction_value network.now (shown.now.cycle + n) }
{
    Series {
        first: correction_value(network, shown.cycle()),
        step: network.cycle.amount(),
    }
}

/// Has the device a correction point at the time, not only to clear, and tells no record what it came to?
fn is_untold(
    network: &Network,
    events: &EventHistory,
    standings: &Standings,
    places: &Places,
    device: DeviceId,
    shown: &Shown,
    time: u64,
) -> bool
    requires range { IsInRange network.now }
    requires device { HasDevice network.now device }
    requires count { device_count standings.now ≡ length network.now.device }
    requires kept { IsSomeKept network.now events.now standings.now places.now }
    requires limit { time ≤ 2 ^ 60 }
    ensures untold { (befallen : List Event) (hs : List Happening)
        → IsKept network.now befallen hs events.now standings.now places.now
        → IsFounded place_of (IsDue (scenario_under network.now befallen)) hs
        → Shows (scenario_under network.now befallen) (earlier time hs) device shown.now → IsTrue result
        → (cycle : ℕ) × OwesAt (scenario_under network.now befallen) hs device time cycle
        × (IsTold (scenario_under network.now befallen) hs device time cycle → ⊥) }
    ensures told { (befallen : List Event) (hs : List Happening)
        → IsKept network.now befallen hs events.now standings.now places.now
        → IsFounded place_of (IsDue (scenario_under network.now befallen)) hs
        → Shows (scenario_under network.now befallen) (earlier time hs) device shown.now → result ≡ false
        → (cycle : ℕ) → OwesAt (scenario_under network.now befallen) hs device time cycle
        → IsTold (scenario_under network.now befallen) hs device time cycle }
{
    let moment = DeviceMoment::of(events, device, time);
    let heard = standings
        .before_rank(device, time, Rank::Corrected)
        .heard_since(network, moment.readings.before);
    if is_owed(coming_point(network, device, shown, moment, &heard)) {
        !is_told(places, device, time)
    } else {
        false
    }
}

/// Comes the point to more than a clearing?
fn is_owed(point: Option<Point>) -> bool
    ensures { IsTrue result ↔ ((cycle : ℕ) × (verdict : Verdict) × ComesTo point cycle verdict
        × (verdict ≡ Cleared → ⊥)) }
{
    match point {
        Some(point) => match point.verdict {
            PointVerdict::Cleared => false,
            PointVerdict::SyncClique | PointVerdict::AsyncClique | PointVerdict::Corrected(_) =>
                true,
        },
        None => false,
    }
}

/// Does a record tell what the device's correction point at the time came to?
fn is_told(places: &Places, device: DeviceId, time: u64) -> bool
    ensures { (s : Scenario) (hs : List Happening) (cycle : ℕ) → ArePlacesOf hs places.now
        → IsFounded place_of (IsDue s) hs → IsTrue result ↔ IsTold s hs device time cycle }
{
    places.has(time, &Place::of_correction(time, device))
        || places.has(time, &Place::of_clique(time, device))
}
