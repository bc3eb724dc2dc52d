//! Where devices stand when something comes to them.

ghost use Rattle.std.specs.Prelude.{◌&&◌, ◌^◌, ◌≡◌, ◌≤◌, List, not};
ghost use Rattle.{audit_law.specs.events.Readings.scenario_under, audit_sweep.specs.Knowing.{IsKnown, KnowsSome}};
ghost use Rattle.net_plan.specs.{Belonging.HasDevice, declared.event.Event.Event};
ghost use Rattle.run_law.specs.{device.{Standpoints.standpoint, States.is_off}, records.Happenings.Happening};

use crate::known::Known;
use audit_law::events::reading_law;
use device_rules::{Standpoint, is_off};
use net_plan::{DeviceId, Network};
use sync_state::State;

/// Where the device stands when a frame arrives at it at the time, which is at most 2^60.
pub(crate) fn standpoint(
    known: &Known,
    network: &Network,
    device: DeviceId,
    time: u64,
) -> Standpoint
    requires known { KnowsSome network.now known.now }
    requires there { HasDevice network.now device }
    requires limit { time ≤ 2 ^ 60 }
    ensures reading { result.reading ≤ 2 ^ 62 }
    ensures is { (befallen : List Event) (hs : List Happening) → IsKnown network.now befallen hs known.now
        → result ≡ standpoint (scenario_under network.now befallen) hs device time }
{
    reading_law();
    let shown = known.standings.before_time(device, time);
    let state = shown.state_before(known.events.is_turned_on_at(device, time));
    let takes_part = takes_part(state, known.events.is_broken(device, time));
    let reading = known.events.reading(device, time);
    Standpoint::new(takes_part, state, reading, shown.adjustment())
}

/// Is a device in the state, which is broken or not, on and not broken?
fn takes_part(state: State, broken: bool) -> bool
    ensures { result ≡ (not (is_off state) && not broken) }
{
    !is_off(state) && !broken
}
