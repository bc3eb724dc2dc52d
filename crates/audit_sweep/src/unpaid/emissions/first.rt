ghost use Rattle.std.specs.Prelude.{◌<◌, ◌^◌, ◌≡◌, ◌≤◌, List, Some, length, slice_get, true, ℕ};
ghost use Rattle.audit_devices.specs.{declared.stretches.kept.Entry.Entry, stretches.Standing.{device_count, kept_of}};
ghost use Rattle.{audit_devices.specs.stretches.Keeping.Stretches, audit_law.specs.events.Readings.scenario_under};
ghost use Rattle.{audit_law.specs.law.{DueRecords.IsDue, FirstDebts.TellsFirst}, run_law.specs.scenario.Devices.is_cm};
ghost use Rattle.audit_sweep.specs.unpaid.emissions.{Emissions.{IsTold, OwesAt, OwesBehind}, Kept.{IsKept, IsSomeKept}};
ghost use Rattle.{audit_sweep.specs.unpaid.emissions.Firsts.TellsFirstOf, run_law.specs.records.Happenings.Happening};
ghost use Rattle.{audit_sweep.specs.unpaid.Sorts.IsEmissionDebt, run_law.specs.records.Ranks.place_of};
ghost use Rattle.{net_plan.specs.{Belonging.HasDevice, Ranges.IsInRange}, run_law.specs.runs.Runs.IsFounded};
ghost use Rattle.net_plan.specs.declared.event.Event.{Event};

use crate::records::places::Places;
use crate::unpaid::earlier_of;
use crate::unpaid::emissions::emitting::is_unemitted;
use audit_devices::stretches::StretchHistory;
use audit_law::events::{EventHistory, reading_law};
use device_rules::is_cm;
use net_plan::{DeviceId, Network};

/// The first time up to `until` at which a compression master sends the frame of a cluster and no record says so.
/// `until` is at most 2^60.
pub fn first_unemitted(
    network: &Network,
    events: &EventHistory,
    stretches: &StretchHistory,
    places: &Places,
    until: u64,
) -> Option<u64>
    requires range { IsInRange network.now }
    requires count { device_count stretches.now ≡ length network.now.device }
    requires kept { IsSomeKept network.now events.now stretches.now places.now }
    requires limit { until ≤ 2 ^ 60 }
    ensures { (befallen : List Event) (hs : List Happening)
        → IsKept network.now befallen hs events.now stretches.now places.now
        → IsFounded place_of (IsDue (scenario_under network.now befallen)) hs
        → TellsFirst (scenario_under network.now befallen) hs until IsEmissionDebt result }
{
    let mut first = None;
    'devices: for place in 0..network.device.as_slice().len() {
        let device = DeviceId(place as u32);
        let unemitted = first_unemitted_by(network, events, stretches, places, device, until);
        first = earlier_of(first, unemitted);
    }
    first
}

/// The same of one device.
fn first_unemitted_by(
    network: &Network,
    events: &EventHistory,
    stretches: &StretchHistory,
    places: &Places,
    device: DeviceId,
    until: u64,
) -> Option<u64>
    requires range { IsInRange network.now }
    requires device { HasDevice network.now device }
    requires count { device_count stretches.now ≡ length network.now.device }
    requires kept { IsSomeKept network.now events.now stretches.now places.now }
    requires limit { until ≤ 2 ^ 60 }
    ensures { (befallen : List Event) (hs : List Happening)
        → IsKept network.now befallen hs events.now stretches.now places.now
        → IsFounded place_of (IsDue (scenario_under network.now befallen)) hs
        → TellsFirstOf (OwesAt (scenario_under network.now befallen) hs until device)
        (IsTold (scenario_under network.now befallen) hs device) result }
{
    if !is_cm(network, device) {
        return None;
    }
    let mut first = None;
    'changes: for place in 0..stretches.changes(device) {
        let unemitted = first_unemitted_behind(
            network, events, stretches, places, device, place, until,
        );
        first = earlier_of(first, unemitted);
    }
    first
}

/// The same of the clusters of the stretch behind the change at a place, from the time of the change on. The later a
/// cluster opens, the later its frame is sent: so from the last cluster back all are looked at up to the first whose
/// frame is sent before the change.
fn first_unemitted_behind(
    network: &Network,
    events: &EventHistory,
    stretches: &StretchHistory,
    places: &Places,
    device: DeviceId,
    place: usize,
    until: u64,
) -> Option<u64>
    requires range { IsInRange network.now }
    requires device { HasDevice network.now device }
    requires master { is_cm network.now device ≡ true }
    requires count { device_count stretches.now ≡ length network.now.device }
    requires kept { IsSomeKept network.now events.now stretches.now places.now }
    requires limit { until ≤ 2 ^ 60 }
    requires place { (kept : Stretches) → kept_of stretches.now device ≡ Some kept → place < length kept.entries }
    ensures { (befallen : List Event) (hs : List Happening) (kept : Stretches) (e : Entry)
        → IsKept network.now befallen hs events.now stretches.now places.now
        → IsFounded place_of (IsDue (scenario_under network.now befallen)) hs
        → kept_of stretches.now device ≡ Some kept → slice_get kept.entries place ≡ Some e
        → TellsFirstOf (OwesBehind (scenario_under network.now befallen) hs until device kept.collections e 0)
        (IsTold (scenario_under network.now befallen) hs device) result }
{
    reading_law();
    let (begun, stretch) = stretches.changed(device, place);
    let mut first = None;
    let mut left = stretch.len();
    'clusters: while left > 0 {
        left -= 1;
        let Some(emitted) = stretch.emission(left) else {
            return first;
        };
        let Some(time) = events.reach(device, 0, emitted.at, until) else {
            continue;
        };
        if time < begun {
            return first;
        }
        if is_unemitted(events, stretches, places, device, &emitted, time) {
            first = earlier_of(first, Some(time));
        }
    }
    first
}
