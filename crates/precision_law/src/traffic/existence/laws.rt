ghost use Rattle.precision_law.specs.traffic.existence.Laws.{RunsExist, RunsExistToEachMark};

/// A network in range has a run up to each time, whatever its events are and its clocks read.
pub fn runs_exist()
    ensures { RunsExist }
{}

/// It has one up to each place in the order of its records too, as behind the events of a time.
pub fn runs_exist_to_each_mark()
    ensures { RunsExistToEachMark }
{}
