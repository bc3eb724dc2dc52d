ghost use Rattle.run_law.specs.law.Laws.{EarlierRunIsFront, HypothesisIsDecided, RunGoesOn, RunIsOne};

/// There is one run of a network under the events up to a mark.
pub fn run_is_one()
    ensures { RunIsOne }
{}

/// The run up to an earlier mark is the front of that up to a later one.
pub fn earlier_run_is_front()
    ensures { EarlierRunIsFront }
{}

/// A run goes on by its next record.
pub fn run_goes_on()
    ensures { RunGoesOn }
{}

/// An event is within the fault hypothesis or outside by one condition, and not both.
pub fn hypothesis_is_decided()
    ensures { HypothesisIsDecided }
{}
