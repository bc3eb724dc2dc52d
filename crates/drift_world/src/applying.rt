ghost use Rattle.std.specs.Prelude.{◌≡◌, Some};
ghost use Rattle.{net_plan.specs.declared.ids.DeviceId.DeviceId, world_state.specs.Applying.device_in};

use crate::state::State;
use device_rules::TellsKind;
use drift_clock::Clock;
use net_plan::{DeviceId, Network, What};
use world_state::applying::device_in;

impl<C: Clock, M: TellsKind + Drop> State<C, M> {
    ghost use Rattle.net_plan.specs.Belonging.{IsOfNetwork};
    ghost use Rattle.drift_world.specs.Stepping.{IsSlotBy, IsTimed, MaySetTimers, SetsOnly};

    /// Sets the timers of the device that the event changes, if it changes one.
    pub fn rekey_by(&mut self, network: &Network, what: &What)
        requires may { MaySetTimers C.last_step C.reading M.stands network.now self.old }
        requires there { IsOfNetwork network.now what.now }
        ensures sets { SetsOnly (IsSlotBy network.now what.now) self.old self.new }
        ensures timed { (device : DeviceId) → device_in what.now ≡ Some device
            → IsTimed C.reading M.stands network.now self.new.timers self.new device }
    {
        if let Some(device) = device_in(what) {
            self.rekey(network, device.0);
        }
    }
}
