ghost use Rattle.std.specs.Prelude.{◌≤◌, ◌^◌};
ghost use Rattle.world_state.specs.Timing.{IsLeastPoint, IsTimeFor};

use crate::frames::Frames;
use crate::timers::NEVER;
use drift_clock::Clock;
use net_plan::DeviceId;
use tte_units::Units;

/// More than any clock reads in a run.
const GREATEST: Units = Units(1 << 61);

/// The least point of the frames that wait at the device, where one does.
pub fn least_point(waiting: &Frames, device: u32) -> Option<Units>
    ensures { IsLeastPoint waiting.now.items device result }
{
    match waiting.first(DeviceId(device)) {
        Some(first) => Some(first.point),
        None => None,
    }
}

/// The first time from now on at which the clock reads so much, or never.
#[inline(always)]
pub fn time_for<C: Clock>(clock: &C, now: u64, value: Option<Units>) -> u64
    requires stepped { C.last_step clock.now ≤ now }
    requires limit { now ≤ 2 ^ 60 }
    ensures { IsTimeFor C.reading clock.now now value result }
{
    match value {
        Some(value) if value.0 <= GREATEST.0 => {
            clock.reach(Units::from_amount(now), value).amount()
        }
        Some(_) | None => NEVER,
    }
}
