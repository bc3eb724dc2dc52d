ghost use Rattle.std.specs.Prelude.{◌≡◌, ◌+◌, ◌^◌, pos, neg_ℤ, ◌≤ℤ◌};
ghost use Rattle.drift_clock.specs.transparent.Points.{point_of};
ghost use Rattle.tte_units.specs.Reading.{greatest_reading, least_reading};

use tte_units::Units;

/// The permanence point of a frame: the reading at which it has been on its way for `dmax`, whatever
/// its way was.
///
/// `reading` is the device's reading at arrival, from -(2^61 + 2^58) to 2^61 + 2^58; `clock` is the
/// frame's grown clock and at most `dmax`, which is at most 2^40.
pub fn permanence(reading: Units, clock: u64, dmax: Units) -> Units
    requires low { least_reading ≤ℤ reading.0 }
    requires high { reading.0 ≤ℤ greatest_reading }
    requires limit { dmax.0 ≤ℤ pos (2 ^ 40) }
    requires young { pos clock ≤ℤ dmax.0 }
    ensures { result.0 ≡ point_of reading.0 clock dmax.0 }
{
    Units(reading.0 + (dmax.0 - clock as i64))
}
