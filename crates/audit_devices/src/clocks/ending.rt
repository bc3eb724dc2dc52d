ghost use Rattle.std.specs.Prelude.{◌↔◌, ◌≡◌, IsSome, IsTrue, List, pos, ℕ};
ghost use Rattle.{audit_devices.specs.Showing.Shows, run_law.specs.scenario.Scenarios.Scenario};
ghost use Rattle.{net_plan.specs.Places.device_at, tte_units.specs.declared.units.Units.{Units as UnitsValue}};
ghost use Rattle.run_law.specs.{records.Happenings.{Happening, up_to}, runs.DueRecords.{EndsAt, IsClockRecord}};
ghost use Rattle.tte_units.specs.Amount.{amount};

use crate::Shown;
use net_plan::{DeviceId, Network};
use sync_state::State;
use tte_units::Units;

/// What a record says of a clock at the end.
#[derive(Clone, Copy)]
pub struct EndClock {
    pub reading: Units,
    pub adjustment: Units,
    pub state: State,
}

/// Is there the device, do the events end at the time, and stands its clock so? The clock reads this at the time, and
/// the rest is what the records up to then show.
pub fn shows_clock(
    network: &Network,
    device: DeviceId,
    shown: &Shown,
    reading: u64,
    ends: bool,
    said: EndClock,
) -> bool
    ensures { (s : Scenario) (hs : List Happening) (time : UnitsValue) → s.network ≡ network.now
        → reading ≡ s.reading device (amount time) → IsTrue ends ↔ EndsAt s.events time
        → Shows s (up_to (amount time) hs) device shown.now
        → IsTrue result ↔ IsClockRecord s hs device time said.reading said.adjustment said.state }
{
    if !has_device(network, device) {
        return false;
    }
    ends && stands(shown, reading, said)
}

/// Is this what the clock reads, and what is shown?
fn stands(shown: &Shown, reading: u64, said: EndClock) -> bool
    ensures { IsTrue result ↔ ((said.reading.0 ≡ pos reading) × (said.adjustment.0 ≡ shown.now.adjustment)
        × (said.state ≡ shown.now.state)) }
{
    if i128::from(said.reading.0) != i128::from(reading) {
        return false;
    }
    i128::from(said.adjustment.0) == shown.adjustment() && said.state == shown.state()
}

fn has_device(network: &Network, device: DeviceId) -> bool
    ensures { IsTrue result ↔ IsSome (device_at network.now device) }
{
    network.device.as_slice().get(device.0 as usize).is_some()
}
