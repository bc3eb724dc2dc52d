ghost use Rattle.precision_law.specs.traffic.safety.Laws.{EndedRunsAreSafe, FrontRunsAreSafe, OwnRunsAreSafe};
ghost use Rattle.precision_law.specs.traffic.safety.Laws.{RunsSoFarAreSafe};

use drift_clock::Clock;

/// A run that goes just as far as a time of the first 2^20 cycles goes well up to there.
pub fn own_runs_are_safe<C: Clock>()
    ensures { OwnRunsAreSafe C.fresh C.after_step C.reading }
{}

/// A run that goes up to behind the events of such a time is one that goes well up to before it, and then records of
/// events of that time.
pub fn front_runs_are_safe<C: Clock>()
    ensures { FrontRunsAreSafe C.fresh C.after_step C.reading }
{}

/// The run up to the time of the end goes well up to there.
pub fn ended_runs_are_safe<C: Clock>()
    ensures { EndedRunsAreSafe C.fresh C.after_step C.reading }
{}

/// The records up to the last event are a run that goes well up to before its time, and then records of events.
pub fn runs_so_far_are_safe<C: Clock>()
    ensures { RunsSoFarAreSafe C.fresh C.after_step C.reading }
{}
