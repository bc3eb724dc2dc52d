ghost use Rattle.std.specs.Prelude.{◌≡◌, ◌<◌, ◌+◌, pos, ◌≤ℤ◌, Some, IfSome, IfNone, length, slice_get};
ghost use Rattle.{drift_world.specs.Ripening.IsFirstRipe, run_law.specs.records.Order.IsIn};
ghost use Rattle.world_state.specs.declared.contents.Waits.{Waits as WaitsValue};

use crate::state::State;
use drift_clock::Clock;
use net_plan::{DeviceId, Network};
use run_law::Machine;
use world_state::contents::Waits;
use world_state::reached::first_reached;

impl<C: Clock, M: Machine + Drop> State<C, M> {
    ghost use Rattle.drift_world.specs.Sound.{IsSized};

    /// Of the frames that wait at the device and to whose points its clock has come, the first that is permanent.
    #[inline(always)]
    pub fn ripe_frame(&self, network: &Network, device: DeviceId) -> Option<Waits>
        requires sized { IsSized C.last_step network.now self.now }
        requires there { device.0 < length network.now.device }
        ensures some { IfSome result (λ one. IsFirstRipe C.reading self.now device one) }
        ensures none { IfNone result ((w : WaitsValue) (clock : C) → IsIn w self.now.waiting.items → w.device ≡ device
            → slice_get self.now.clocks.items device.0 ≡ Some clock → w.point.0 ≤ℤ pos (C.reading clock self.now.time)
            → ⊥) }
    {
        let reading = self.reading_of(network, device.0);
        first_reached(&self.waiting, device, reading)
    }
}
