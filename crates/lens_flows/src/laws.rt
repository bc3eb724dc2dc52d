ghost use Rattle.lens_flows.specs.Laws.{CertainAreDue, CertainAreOwed, NoneIsMissing};

/// In the answer for a report of an accepted network no frame that is owed is missing. Of no flow more frames are certain
/// than owed, and each that is certain is due by events alone.
pub fn flows_law()
    ensures missing { NoneIsMissing }
    ensures certain { CertainAreOwed }
    ensures due { CertainAreDue }
{}
