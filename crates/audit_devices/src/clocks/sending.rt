ghost use Rattle.std.specs.Prelude.{◌*◌, ◌+◌, ◌^◌, ◌↔◌, ◌≡◌, ◌≤◌, IsTrue, List, pos, ℕ};
ghost use Rattle.audit_devices.specs.clocks.{Finding.{IsSeries, value_in}, Sendings.{IsNextSendingOrNone, IsStretch}};
ghost use Rattle.{audit_devices.specs.clocks.Moments.StandsAt, run_law.specs.records.Happenings.Happening};
ghost use Rattle.audit_law.specs.events.{Readings.scenario_under, Remembering.{Remembers, RemembersSome}};
ghost use Rattle.{net_plan.specs.{Belonging.HasDevice, Ranges.IsInRange}, tte_units.specs.Amount.amount};
ghost use Rattle.net_plan.specs.declared.{event.Event.Event, ids.DeviceId.{DeviceId as DeviceIdValue}};
ghost use Rattle.run_law.specs.{device.LocalClocks.Reaches, scenario.Scenarios.Scenario, timed.Dispatching.Sends};

use crate::Shown;
use crate::clocks::network::begun;
use crate::clocks::{DeviceMoment, Series, is_up, next_crossing, reaches};
use audit_law::events::{EventHistory, reading_law};
use device_rules::is_master;
use net_plan::{DeviceId, Network};
use sync_state::State;

/// When a master sends the control frame of a cycle.
#[derive(Clone, Copy, PartialEq, Eq)]
pub struct MasterSending {
    pub cycle: u128,
    pub time: u64,
}

/// Does the device send the control frame of the cycle at the moment? This is what the records of earlier times show.
pub fn sends(
    network: &Network,
    device: DeviceId,
    shown: &Shown,
    moment: DeviceMoment,
    cycle: u32,
) -> bool
    requires { IsInRange network.now }
    ensures { (s : Scenario) (hs : List Happening) (t : ℕ) → StandsAt s hs network.now device t moment shown.now
        → IsTrue result ↔ Sends s hs device t cycle }
{
    if !is_master(network, device) {
        return false;
    }
    is_up(shown, moment) && begins(network, shown, moment, cycle)
}

/// Does the device's clock reach the beginning of the cycle, which is not the silent one?
fn begins(network: &Network, shown: &Shown, moment: DeviceMoment, cycle: u32) -> bool
    requires { IsInRange network.now }
    ensures { (s : Scenario) (hs : List Happening) (device : DeviceIdValue) (t : ℕ)
        → StandsAt s hs network.now device t moment shown.now
        → IsTrue result ↔ ((1 ≤ cycle) × Reaches s hs device (pos (cycle * amount network.now.cycle)) t) }
{
    1 <= cycle && reaches(shown, moment.readings, begun(network, cycle))
}

/// What the device sends next, later than `after`, up to `until`, where no record changes what is shown and the device
/// is correct and not turned on. `until` is at most 2^60.
pub fn next_sending(
    network: &Network,
    events: &EventHistory,
    device: DeviceId,
    shown: &Shown,
    after: u64,
    until: u64,
) -> Option<MasterSending>
    requires range { IsInRange network.now }
    requires some { RemembersSome events.now }
    requires limit { until ≤ 2 ^ 60 }
    ensures { (befallen : List Event) (hs : List Happening) → Remembers network.now befallen events.now
        → HasDevice network.now device
        → IsStretch (scenario_under network.now befallen) hs device after until shown.now
        → IsNextSendingOrNone (scenario_under network.now befallen) hs device after until result }
{
    reading_law();
    if !is_master(network, device) {
        return None;
    }
    if shown.state() != State::Synchronised {
        return None;
    }
    match next_crossing(events, device, shown, after, until, beginnings(network)) {
        Some(crossed) => Some(MasterSending {
            cycle: crossed.number + 1,
            time: crossed.time,
        }),
        None => None,
    }
}

/// The beginnings of the cycles, but of the silent one.
pub fn beginnings(network: &Network) -> Series
    requires { IsInRange network.now }
    ensures series { IsSeries result }
    ensures values { (n : ℕ) → value_in result n ≡ pos ((n + 1) * amount network.now.cycle) }
    ensures step { 2 ^ 32 ≤ result.step }
{
    let cycle = network.cycle.amount();
    Series {
        first: i128::from(cycle),
        step: cycle,
    }
}
