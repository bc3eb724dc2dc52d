ghost use Rattle.std.specs.Prelude.{◌+◌, ◌<◌, ◌^◌, ◌↔◌, ◌≡◌, ◌≤◌, IsTrue, List, false, length, true, ℕ};
ghost use Rattle.{audit_devices.specs.{Keeping.device_count, Showing.Shows}, run_law.specs.scenario.Scenarios.Scenario};
ghost use Rattle.{audit_law.specs.events.Readings.scenario_under, net_plan.specs.Places.{is_master as is_master_role}};
ghost use Rattle.{audit_law.specs.events.Remembering.Remembers, run_law.specs.records.Happenings.{Happening, earlier}};
ghost use Rattle.{audit_law.specs.law.FirstDebts.TellsFirst, audit_sweep.specs.unpaid.Sorts.IsSendingDebt};
ghost use Rattle.run_law.specs.{scenario.Devices.has_role, timed.Dispatching.{IsUp, Sends}};
ghost use Rattle.audit_sweep.specs.{records.places.Placing.ArePlacesOf, unpaid.points.FirstUnpaid.TellsFirstUnpaid};
ghost use Rattle.audit_sweep.specs.unpaid.points.{Kept.{IsKept, IsSomeKept, RemembersSomeOf}, Sent.IsSent};
ghost use Rattle.audit_devices.specs.Lasting.{ShowsWithin};
ghost use Rattle.net_plan.specs.{Belonging.HasDevice, Ranges.IsInRange};
ghost use Rattle.net_plan.specs.declared.{event.Event.Event, network.Network.{Network as NetworkValue}};

use crate::records::places::Places;
use crate::unpaid::earlier_of;
use audit_devices::clocks::{Crossed, DeviceMoment, beginnings, is_up, next_crossing};
use audit_devices::{Shown, Standings};
use audit_law::events::{EventHistory, reading_law};
use device_rules::is_master;
use net_plan::{DeviceId, Network};
use run_law::plain::Place;
use sync_state::State;

/// The first time up to `until` at which a master sends and no record says so. `until` is at most 2^60.
pub fn first_unsent(
    network: &Network,
    events: &EventHistory,
    standings: &Standings,
    places: &Places,
    until: u64,
) -> Option<u64>
    requires range { IsInRange network.now }
    requires count { device_count standings.now ≡ length network.now.device }
    requires kept { IsSomeKept network.now events.now standings.now places.now }
    requires limit { until ≤ 2 ^ 60 }
    ensures { (befallen : List Event) (hs : List Happening)
        → IsKept network.now befallen hs events.now standings.now places.now
        → TellsFirst (scenario_under network.now befallen) hs until IsSendingDebt result }
{
    let mut first = None;
    'devices: for place in 0..network.device.as_slice().len() {
        let device = DeviceId(place as u32);
        let unsent = first_unsent_by(network, events, standings, places, device, until);
        first = earlier_of(first, unsent);
    }
    first
}

/// The same of one device.
fn first_unsent_by(
    network: &Network,
    events: &EventHistory,
    standings: &Standings,
    places: &Places,
    device: DeviceId,
    until: u64,
) -> Option<u64>
    requires range { IsInRange network.now }
    requires device { HasDevice network.now device }
    requires count { device_count standings.now ≡ length network.now.device }
    requires kept { IsSomeKept network.now events.now standings.now places.now }
    requires limit { until ≤ 2 ^ 60 }
    ensures { (befallen : List Event) (hs : List Happening)
        → IsKept network.now befallen hs events.now standings.now places.now
        → TellsFirstUnpaid (Sends (scenario_under network.now befallen) hs device)
        (IsSent (scenario_under network.now befallen) hs device) 0 until result }
{
    if !is_master(network, device) {
        return None;
    }
    let mut after = 0;
    'stretches: while after < until {
        let (shown, end) = standings.after_time(device, after, until);
        let unsent = first_unsent_within(network, events, places, device, shown, after, end);
        if unsent.is_some() {
            return unsent;
        }
        after = end;
    }
    None
}

/// The same later than `after`, where this is shown of the device, which is a master.
fn first_unsent_within(
    network: &Network,
    events: &EventHistory,
    places: &Places,
    device: DeviceId,
    shown: &Shown,
    after: u64,
    until: u64,
) -> Option<u64>
    requires range { IsInRange network.now }
    requires device { HasDevice network.now device }
    requires events { RemembersSomeOf network.now events.now }
    requires limit { until ≤ 2 ^ 60 }
    ensures { (befallen : List Event) (hs : List Happening) → Remembers network.now befallen events.now
        → ArePlacesOf hs places.now → has_role network.now is_master_role device ≡ true
        → ShowsWithin (scenario_under network.now befallen) hs device after until shown.now
        → TellsFirstUnpaid (Sends (scenario_under network.now befallen) hs device)
        (IsSent (scenario_under network.now befallen) hs device) after until result }
{
    reading_law();
    if shown.state() != State::Synchronised {
        return None;
    }
    let series = beginnings(network);
    let mut from = after;
    'begun: while let Some(crossed) = next_crossing(events, device, shown, from, until, series) {
        if is_unsent(network, events, places, device, shown, crossed) {
            return Some(crossed.time);
        }
        from = crossed.time;
    }
    None
}

/// Is the device synchronised and correct where its clock crosses the beginning of a cycle, and says no record that it
/// sends?
fn is_unsent(
    network: &Network,
    events: &EventHistory,
    places: &Places,
    device: DeviceId,
    shown: &Shown,
    crossed: Crossed,
) -> bool
    requires events { RemembersSomeOf network.now events.now }
    requires limit { crossed.time ≤ 2 ^ 60 }
    requires few { crossed.number < 2 ^ 60 }
    ensures unsent { (befallen : List Event) (hs : List Happening) → Remembers network.now befallen events.now
        → HasDevice network.now device → ArePlacesOf hs places.now
        → Shows (scenario_under network.now befallen) (earlier crossed.time hs) device shown.now → IsTrue result
        → IsUp (scenario_under network.now befallen) hs device crossed.time
        × (IsSent (scenario_under network.now befallen) hs device crossed.time (crossed.number + 1) → ⊥) }
    ensures sent { (befallen : List Event) (hs : List Happening) → Remembers network.now befallen events.now
        → HasDevice network.now device → ArePlacesOf hs places.now
        → Shows (scenario_under network.now befallen) (earlier crossed.time hs) device shown.now → result ≡ false
        → IsUp (scenario_under network.now befallen) hs device crossed.time
        → IsSent (scenario_under network.now befallen) hs device crossed.time (crossed.number + 1) }
{
    let moment = DeviceMoment::of(events, device, crossed.time);
    if is_up(shown, moment) {
        !is_sent(places, device, crossed.time, (crossed.number + 1) as u64)
    } else {
        false
    }
}

/// Does a record say that the device sends its frame of the cycle at the time?
fn is_sent(places: &Places, device: DeviceId, time: u64, cycle: u64) -> bool
    ensures { (s : Scenario) (hs : List Happening) → ArePlacesOf hs places.now
        → IsTrue result ↔ IsSent s hs device time cycle }
{
    places.has(time, &Place::of_sending(time, device, cycle))
}
