ghost use Rattle.fault_hypothesis.specs.storm.Laws.{StormIsOne, StormsAreWithin};

/// There is one storm of a seed over so many cycles on a network.
pub fn storm_is_one()
    ensures { StormIsOne }
{}

/// Each event of a storm is within the fault hypothesis, given those before it.
pub fn storms_are_within()
    ensures { StormsAreWithin }
{}
