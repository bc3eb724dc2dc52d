ghost use Rattle.std.specs.Prelude.{◌<◌, ◌↔◌, ◌≡◌, IsTrue, List, false, pos, true};
ghost use Rattle.{audit_devices.specs.stretches.Standing.{Stands, device_count}, net_plan.specs.Belonging.HasDevice};
ghost use Rattle.{audit_law.specs.events.Readings.scenario_under, net_plan.specs.declared.network.Network.Network};
ghost use Rattle.audit_law.specs.{events.Remembering.Remembers, law.{DueRecords.IsDue, Emitted.emission_place}};
ghost use Rattle.audit_sweep.specs.{records.places.Placing.ArePlacesOf, unpaid.emissions.Kept.{IsKept, IsKeptOfMaster}};
ghost use Rattle.audit_sweep.specs.unpaid.emissions.Emissions.{IsShort, IsTold, Owes, sent_of};
ghost use Rattle.{drift_clock.specs.Reach.IsReach, run_law.specs.runs.Runs.IsFounded};
ghost use Rattle.{net_plan.specs.declared.event.Event.Event, run_law.specs.records.Happenings.Happening};
ghost use Rattle.run_law.specs.{records.Ranks.place_of, scenario.{Devices.is_cm, Scenarios.Scenario}};

use crate::records::places::Places;
use audit_devices::stretches::StretchHistory;
use audit_law::collections::Emitted;
use audit_law::events::EventHistory;
use net_plan::DeviceId;
use run_law::plain::Place;
use tte_units::Units;

/// Does the compression master send this at the time at which its clock first reaches the reading, and says no record
/// so?
pub(crate) fn is_unemitted(
    events: &EventHistory,
    stretches: &StretchHistory,
    places: &Places,
    device: DeviceId,
    emitted: &Emitted,
    time: u64,
) -> bool
    requires device { device.0 < device_count stretches.now }
    requires kept { IsKeptOfMaster device stretches.now }
    requires short { IsShort emitted.now.at }
    ensures unemitted { (network : Network) (befallen : List Event) (hs : List Happening)
        → IsKept network befallen hs events.now stretches.now places.now
        → IsFounded place_of (IsDue (scenario_under network befallen)) hs → HasDevice network device
        → is_cm network device ≡ true
        → IsReach ((scenario_under network befallen).reading device) (pos 0) emitted.now.at (pos time) → IsTrue result
        → Owes (scenario_under network befallen) hs device (sent_of emitted.now) time
        × (IsTold (scenario_under network befallen) hs device (sent_of emitted.now) → ⊥) }
    ensures told { (network : Network) (befallen : List Event) (hs : List Happening)
        → IsKept network befallen hs events.now stretches.now places.now
        → IsFounded place_of (IsDue (scenario_under network befallen)) hs → HasDevice network device
        → is_cm network device ≡ true
        → IsReach ((scenario_under network befallen).reading device) (pos 0) emitted.now.at (pos time) → result ≡ false
        → Owes (scenario_under network befallen) hs device (sent_of emitted.now) time
        → IsTold (scenario_under network befallen) hs device (sent_of emitted.now) }
{
    if is_told(places, device, emitted, time) {
        false
    } else {
        is_owed(events, stretches, device, emitted, time)
    }
}

/// Says a record that the device sends this, which it can at the time alone?
fn is_told(places: &Places, device: DeviceId, emitted: &Emitted, time: u64) -> bool
    requires short { IsShort emitted.now.at }
    ensures { (s : Scenario) (hs : List Happening) → ArePlacesOf hs places.now → IsFounded place_of (IsDue s) hs
        → IsReach (s.reading device) (pos 0) emitted.now.at (pos time)
        → IsTrue result ↔ IsTold s hs device (sent_of emitted.now) }
{
    places.has(time, &place_of(device, emitted, time))
}

/// Does the compression master send this at the time at which its clock first reaches the reading?
fn is_owed(
    events: &EventHistory,
    stretches: &StretchHistory,
    device: DeviceId,
    emitted: &Emitted,
    time: u64,
) -> bool
    requires device { device.0 < device_count stretches.now }
    requires kept { IsKeptOfMaster device stretches.now }
    requires short { IsShort emitted.now.at }
    ensures { (network : Network) (befallen : List Event) (hs : List Happening)
        → Remembers network befallen events.now → Stands network hs stretches.now → HasDevice network device
        → is_cm network device ≡ true
        → IsReach ((scenario_under network befallen).reading device) (pos 0) emitted.now.at (pos time)
        → IsTrue result ↔ Owes (scenario_under network befallen) hs device (sent_of emitted.now) time }
{
    if events.is_broken(device, time) {
        return false;
    }
    let place = place_of(device, emitted, time);
    stretches.before(device, &place).emits(emitted)
}

/// The place of the record that the device sends this at the time.
fn place_of(device: DeviceId, emitted: &Emitted, time: u64) -> Place
    requires { IsShort emitted.now.at }
    ensures { result ≡ emission_place time device (sent_of emitted.now) }
{
    let opened = Units(emitted.opened);
    let at = reading_of(emitted.at);
    Place::of_emission(time, device, opened, at, emitted.cycle, emitted.members)
}

/// The reading as units.
fn reading_of(at: i128) -> Units
    requires { IsShort at }
    ensures { result.0 ≡ at }
{
    Units(at as i64)
}
