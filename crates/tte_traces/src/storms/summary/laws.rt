ghost use Rattle.tte_traces.specs.storms.summary.Laws.{SpreadIsOne, SpreadIsWithinPrecision};

/// The records of a run have one greatest spread.
pub fn spread_is_one()
    ensures { SpreadIsOne }
{}

/// Where the clocks of a run agree up to a time, and no record is later, the spread is at most the precision.
pub fn spread_is_within_precision()
    ensures { SpreadIsWithinPrecision }
{}
