ghost use Rattle.std.specs.Prelude.{◌≡◌, ◌↔◌, ◌≤◌, ◌-◌, ℕ, IsTrue, pos};
ghost use Rattle.drift_clock.specs.Reach.{IsReach};

use crate::Readings;
use tte_units::Units;

/// Whether the clock, which never falls, first reads the value or more at the time.
pub(crate) fn reaches(time: u64, readings: Readings, value: Units) -> bool
    ensures { (reading : ℕ → ℕ) → ((t u : ℕ) → t ≤ u → reading t ≤ reading u) → readings.now ≡ reading time
        → readings.before ≡ reading (time - 1) → IsTrue result ↔ IsReach reading (pos 0) value.0 (pos time) }
{
    let value = i128::from(value.0);
    value <= i128::from(readings.now) && (time == 0 || i128::from(readings.before) < value)
}
