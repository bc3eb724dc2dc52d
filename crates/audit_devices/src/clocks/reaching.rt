ghost use Rattle.std.specs.Prelude.{◌+ℤ◌, ◌^◌, ◌↔◌, ◌≡◌, ◌≤ℤ◌, IsTrue, List, neg_ℤ, pos, ℕ};
ghost use Rattle.audit_devices.specs.{Showing.{IsReading, IsSteady, Shows}, clocks.Crossing.HasCrossed};
ghost use Rattle.{audit_devices.specs.clocks.Moments.StandsAt, run_law.specs.records.Happenings.{Happening, earlier}};
ghost use Rattle.net_plan.specs.declared.{ids.DeviceId.DeviceId, network.Network.Network};
ghost use Rattle.run_law.specs.{device.LocalClocks.Reaches, scenario.Scenarios.Scenario, timed.Dispatching.IsUp};

use crate::clocks::DeviceMoment;
use crate::{Readings, Shown};
use sync_state::State;

/// Does the device's clock reach the value at the time of these readings? This is what the records of earlier times
/// show.
pub fn reaches(shown: &Shown, readings: Readings, value: i128) -> bool
    ensures { (s : Scenario) (hs : List Happening) (device : DeviceId) (t : ℕ) → IsReading s device t readings
        → IsSteady s device → Shows s (earlier t hs) device shown.now
        → IsTrue result ↔ Reaches s hs device value t }
{
    has_crossed(
        shown.at_change(),
        local(shown, readings.before),
        local(shown, readings.now),
        value,
    )
}

/// Does a clock that showed `at_change` after its last change cross the value now?
fn has_crossed(at_change: i128, before: i128, now: i128, value: i128) -> bool
    ensures { IsTrue result ↔ HasCrossed at_change before now value }
{
    at_change < value && before < value && value <= now
}

/// Is the device synchronised and correct at the moment? This is what the records of earlier times show.
pub fn is_up(shown: &Shown, moment: DeviceMoment) -> bool
    ensures { (s : Scenario) (hs : List Happening) (network : Network) (device : DeviceId) (t : ℕ)
        → StandsAt s hs network device t moment shown.now → IsTrue result ↔ IsUp s hs device t }
{
    shown.state_before(moment.turned_on) == State::Synchronised && !moment.broken
}

/// What the local clock shows where it reads this.
pub(crate) fn local(shown: &Shown, reading: u64) -> i128
    ensures value { result ≡ pos reading +ℤ shown.now.adjustment }
    ensures least { neg_ℤ (pos (2 ^ 82)) ≤ℤ result }
    ensures most { result ≤ℤ pos (2 ^ 82) }
{
    i128::from(reading) + shown.adjustment()
}
