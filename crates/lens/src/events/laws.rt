ghost use Rattle.lens.specs.events.Laws.{EventsAnswersExist, StormReport};

/// The run over the lines of a storm's events is the one that the storm's summary sums up.
pub fn storm_report_law()
    ensures { StormReport }
{}

/// For each accepted network, each seed and up to 100,000 cycles there is an answer of `events`.
pub fn events_answers_exist()
    ensures { EventsAnswersExist }
{}
