ghost use Rattle.std.specs.{Int.int_div_euclid, Prelude.{◌&&◌, ◌*◌, ◌+ℤ◌, ◌-ℤ◌, ◌≡◌, int_lt, pos, ℕ}};
ghost use Rattle.net_plan.specs.{Ranges.IsInRange, declared.{ids.DeviceId.DeviceId, network.Network.Network}};
ghost use Rattle.run_law.specs.control.Collections.{dispatch_value, point_fault};
ghost use Rattle.switch_ports.specs.{Sites.IsSiteOf, Standpoints.{IsAlive, IsPoint, IsSiteInRange}};
ghost use Rattle.{sync_state.specs.correction.Deviation.IsSmall, tte_units.specs.Amount.{amount, units_of}};

use crate::hearing::shown;
use crate::{Site, Standpoint};
use device_rules::{is_number, is_synchronised};
use run_law::Reason;
use tte_units::Units;

impl Site {
    /// Why a synchronised compression master drops a frame at its point, if it does: the dispatch
    /// lies too far from the beginning of a cycle, or is that of another cycle than the frame's.
    pub(crate) fn point_fault(&self, at: &Standpoint, cycle: u32, point: Units) -> Option<Reason>
        requires alive { IsAlive self.now at.now }
        requires point { IsPoint point }
        ensures { (network : Network) (device : DeviceId) → IsInRange network → IsSiteOf network device self.now
            → result ≡ point_fault network at.now.state at.now.adjustment.0 point.0 cycle }
    {
        if !is_synchronised(at.state) {
            return None;
        }
        let value = self.dispatch_value(point, at.adjustment);
        if self.is_far(self.place_in_cycle(value)) {
            Some(Reason::Gate)
        } else if !is_number(i128::from(self.cycle_of(value)), cycle) {
            Some(Reason::Cycle)
        } else {
            None
        }
    }

    /// The local value at which the frame was dispatched, as it seems, and two precisions.
    fn dispatch_value(&self, point: Units, adjustment: Units) -> Units
        requires site { IsSiteInRange self.now }
        requires small { IsSmall adjustment.0 }
        requires point { IsPoint point }
        ensures { result.0 ≡ (((point.0 +ℤ adjustment.0) -ℤ pos (amount self.now.dmax))
            +ℤ pos (2 * amount self.now.precision)) }
    {
        Units(shown(point, adjustment).0 - self.dmax.0 + 2 * self.precision.0)
    }

    /// Is the place farther than four precisions from where the cycle seems to begin?
    fn is_far(&self, place: Units) -> bool
        requires { IsSiteInRange self.now }
        ensures { result ≡ int_lt (pos (4 * amount self.now.precision)) place.0 }
    {
        4 * self.precision.0 < place.0
    }

    /// The cycle of the value, of which those before the first are below 0.
    fn cycle_of(&self, value: Units) -> i64
        requires { IsSiteInRange self.now }
        ensures { result ≡ int_div_euclid value.0 self.now.plan.cycle_length.0 }
    {
        value.0.div_euclid(self.plan.cycle_length.0)
    }
}
