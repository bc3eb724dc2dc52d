ghost use Rattle.std.specs.Prelude.{◌*◌, ◌+◌, ◌^◌, ◌≡◌, ◌≤◌, IfSome, option_and_then};
ghost use Rattle.{run_law.specs.control.Hearing.last_cycle, switch_ports.specs.Standpoints.IsSiteInRange};
ghost use Rattle.{switch_ports.specs.Corrections.correction_at, sync_state.specs.correction.Deviation.IsSmall};
ghost use Rattle.{sync_state.specs.Standing.next_point, tte_units.specs.Amount.{amount, units_of}};

use crate::Site;
use sync_state::Sync;
use tte_units::Units;

impl Site {
    /// The reading at which a clock of this adjustment reaches the correction point of the cycle. It
    /// is None exactly where the clock showed the point's value or more when the adjustment changed.
    pub(crate) fn correction_at(
        &self,
        cycle: u32,
        adjustment: Units,
        changed: Units,
    ) -> Option<Units>
        requires site { IsSiteInRange self.now }
        requires cycle { cycle ≤ 2 ^ 21 + 2 ^ 18 }
        requires small { IsSmall adjustment.0 }
        ensures { result ≡ correction_at self.now cycle adjustment.0 changed.0 }
    {
        let value = self.correction_value(cycle);
        if changed.0 < value.0 {
            Some(Units(value.0 - adjustment.0))
        } else {
            None
        }
    }

    /// The reading at which the next correction point comes, if it does.
    pub(crate) fn next_correction_at(&self, sync: &Sync, changed: Units) -> Option<Units>
        requires site { IsSiteInRange self.now }
        requires number { IfSome (next_point sync.now) (λ n. n ≤ last_cycle + 3) }
        requires small { IsSmall sync.now.adjustment.0 }
        ensures { result ≡ option_and_then
            (λ cycle. correction_at self.now cycle sync.now.adjustment.0 changed.0) (next_point sync.now) }
    {
        match sync.next_correction() {
            Some(cycle) => self.correction_at(cycle, sync.adjustment(), changed),
            None => None,
        }
    }

    /// The local value at the correction point of the cycle.
    fn correction_value(&self, cycle: u32) -> Units
        requires site { IsSiteInRange self.now }
        requires cycle { cycle ≤ 2 ^ 21 + 2 ^ 18 }
        ensures { result ≡ units_of (cycle * amount self.now.plan.cycle_length + amount self.now.correction) }
    {
        Units::from_amount(
            u64::from(cycle) * self.plan.cycle_length.amount() + self.correction.amount(),
        )
    }
}
