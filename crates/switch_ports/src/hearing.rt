ghost use Rattle.std.specs.Prelude.{◌≡◌, ◌+◌, ◌≤◌, ◌^◌, ◌+ℤ◌, ◌-ℤ◌, ◌&&◌, nat_le};
ghost use Rattle.run_law.specs.control.Hearing.{heard_as, heard_by_schedule, is_in_schedule, last_cycle};
ghost use Rattle.{run_law.specs.control.Permanence.ripe_as, sync_state.specs.correction.Deviation.IsSmall};
ghost use Rattle.{switch_ports.specs.Standpoints.{IsPoint, IsSiteInRange}, sync_state.specs.Plan.expected_at};

use crate::Site;
use run_law::Ripe;
use sync_state::membership::count;
use sync_state::{LAST_CYCLE, State};
use tte_units::Units;
use tte_units::frames::Members;

impl Site {
    /// How the switch hears a compressed frame of a cycle and members at a point, in this state and
    /// with this adjustment.
    pub(crate) fn hearing(
        &self,
        state: State,
        adjustment: Units,
        point: Units,
        cycle: u32,
        members: Members,
    ) -> Ripe
        requires site { IsSiteInRange self.now }
        requires small { IsSmall adjustment.0 }
        requires point { IsPoint point }
        ensures { result ≡ ripe_as
            (heard_as self.now.plan self.now.precision.0 state adjustment.0 point.0 cycle members) }
    {
        match state {
            State::Off => Ripe::Ignored,
            State::Integrating => {
                if self.plan.threshold <= count(members) && cycle <= LAST_CYCLE {
                    Ripe::Integrates
                } else {
                    Ripe::Ignored
                }
            }
            State::Joining | State::Synchronised => {
                self.timed_hearing(shown(point, adjustment), cycle)
            }
        }
    }

    /// How it hears the frame at a local value, where it has the common time.
    fn timed_hearing(&self, value: Units, cycle: u32) -> Ripe
        requires site { IsSiteInRange self.now }
        ensures { result ≡ ripe_as (heard_by_schedule
            (nat_le cycle last_cycle && is_in_schedule self.now.plan self.now.precision.0 cycle value.0)) }
    {
        if self.is_timely(cycle, value) {
            Ripe::Within
        } else {
            Ripe::Outside
        }
    }

    /// Is the cycle one that is used, and the local value in its time?
    fn is_timely(&self, cycle: u32, value: Units) -> bool
        requires site { IsSiteInRange self.now }
        ensures { result ≡ (nat_le cycle last_cycle
            && is_in_schedule self.now.plan self.now.precision.0 cycle value.0) }
    {
        cycle <= LAST_CYCLE && self.is_in_time(cycle, value)
    }

    /// Is the local value where the frame of the cycle is expected, up to the precision?
    fn is_in_time(&self, cycle: u32, value: Units) -> bool
        requires site { IsSiteInRange self.now }
        requires cycle { cycle ≤ last_cycle }
        ensures { result ≡ is_in_schedule self.now.plan self.now.precision.0 cycle value.0 }
    {
        self.earliest(cycle).0 <= value.0 && value.0 <= self.latest(cycle).0
    }

    /// The local value at which the frame of the cycle is expected.
    pub(crate) fn expected_at(&self, cycle: u32) -> Units
        requires site { IsSiteInRange self.now }
        requires cycle { cycle ≤ 2 ^ 21 + 2 ^ 18 }
        ensures { result.0 ≡ expected_at self.now.plan cycle }
    {
        Units(i64::from(cycle) * self.plan.cycle_length.0 + self.plan.expected.0)
    }

    fn earliest(&self, cycle: u32) -> Units
        requires site { IsSiteInRange self.now }
        requires cycle { cycle ≤ last_cycle }
        ensures { result.0 ≡ (expected_at self.now.plan cycle -ℤ self.now.precision.0) }
    {
        Units(self.expected_at(cycle).0 - self.precision.0)
    }

    fn latest(&self, cycle: u32) -> Units
        requires site { IsSiteInRange self.now }
        requires cycle { cycle ≤ last_cycle }
        ensures { result.0 ≡ (expected_at self.now.plan cycle +ℤ self.now.precision.0) }
    {
        Units(self.expected_at(cycle).0 + self.precision.0)
    }
}

/// What a local clock of this adjustment shows at the point.
pub(crate) fn shown(point: Units, adjustment: Units) -> Units
    requires small { IsSmall adjustment.0 }
    requires point { IsPoint point }
    ensures { result.0 ≡ (point.0 +ℤ adjustment.0) }
{
    Units(point.0 + adjustment.0)
}
