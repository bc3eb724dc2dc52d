ghost use Rattle.std.specs.Prelude.{IfSome};
ghost use Rattle.{drift_world.specs.{Locals.{IsWide, MayRead, Shows}, Sound.IsSized}, tte_units.specs.Amount.amount};

use crate::state::State;
use drift_clock::Clock;
use net_plan::{DeviceId, Network};
use run_law::Machine;
use sync_state::State as DeviceState;
use tte_units::Units;

/// The local clock of a device at a time from its last rate step on: its reading and its adjustment.
/// None stands for one that is broken or not synchronised.
pub fn local_of<C: Clock, M: Machine + Drop>(
    state: &State<C, M>,
    network: &Network,
    device: DeviceId,
    t: Units,
) -> Option<i128>
    requires sized { IsSized C.last_step network.now state.now }
    requires may { MayRead C.last_step network.now state.now device t }
    ensures shows { Shows C.reading M.stands state.now device (amount t) result }
    ensures range { IfSome result IsWide }
{
    let index = device.0 as usize;
    let clock = &state.clocks[index];
    let kept = &state.machines[index];
    if state.broken[index] || kept.state() != DeviceState::Synchronised {
        return None;
    }
    let reading = clock.read(t);
    Some(i128::from(reading.0) + i128::from(kept.adjustment().0))
}
