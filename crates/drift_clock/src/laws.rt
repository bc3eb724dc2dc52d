ghost use Rattle.drift_clock.specs.ClockLaws.{AlwaysBeginsAtZero, AlwaysKeepsClockLaws, ReadsItsSteps};
ghost use Rattle.drift_clock.specs.{Counts.ReadsCount, Slips.SlipsLittle, Steady.ReadsTime};

use crate::{Clock, SegmentClock, SteadyClock};

/// Each clock reads 0 at time 0, reads what the steps of its rate determine, and keeps the clock
/// laws whatever these steps are.
pub fn clock_laws<C: Clock>()
    ensures begins { AlwaysBeginsAtZero C.fresh C.after_step C.reading }
    ensures steps { ReadsItsSteps C.fresh C.after_step C.reading }
    ensures laws { AlwaysKeepsClockLaws C.fresh C.after_step C.reading }
{}

/// A `SegmentClock` reads, in whole grains, the sum of its gains over all the steps of its rate.
pub fn segment_law()
    ensures { ReadsCount
        ⟦<SegmentClock as Clock>⟧.fresh
        ⟦<SegmentClock as Clock>⟧.after_step
        ⟦<SegmentClock as Clock>⟧.reading }
{}

/// A `SteadyClock` reads the time in whole grains, whatever the steps of its rate.
pub fn steady_law()
    ensures { ReadsTime
        ⟦<SteadyClock as Clock>⟧.fresh
        ⟦<SteadyClock as Clock>⟧.after_step
        ⟦<SteadyClock as Clock>⟧.reading }
{}

/// While a clock that keeps the clock laws goes on by a value, the time that passes is that value up
/// to its slip.
pub fn slip_law()
    ensures { SlipsLittle }
{}
