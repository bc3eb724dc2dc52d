ghost use Rattle.audit_law.specs.events.Readings.{ClocksReadOn};

use drift_clock::{SegmentClock, clock_laws};

/// Under events within the hypothesis the reading of a clock begins at 0 and never falls, up to 2^60 it is at most
/// 2^60 + 2^51, and in a unit of time it goes on by less than a cycle.
pub fn reading_law()
    ensures { ClocksReadOn }
{
    clock_laws::<SegmentClock>();
}
