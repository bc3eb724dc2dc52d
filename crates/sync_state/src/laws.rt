ghost use Rattle.sync_state.specs.Laws.{CorrectedByPoints, VerdictIsOne};

/// A correction point comes to one thing.
pub fn verdict_is_one()
    ensures { VerdictIsOne }
{}

/// After a correction the adjustment depends on the frames heard alone.
pub fn corrected_by_points()
    ensures { CorrectedByPoints }
{}
