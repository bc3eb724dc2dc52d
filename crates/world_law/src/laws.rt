ghost use Rattle.world_law.specs.device.Growing.{ActsAreFew, ActsGrow, FewAreEmitted};
ghost use Rattle.world_law.specs.source.{Applying.{RunGoesOnByEvent, RunStaysUnderMore}, Sources.DueIsSourced};
ghost use Rattle.world_law.specs.world.Moves.{GivenStep, NothingComesBefore};
ghost use Rattle.world_law.specs.world.World.{FirstSettledIsNext, NothingSettledIsAll};

use drift_clock::Clock;
use run_law::Machine;

/// Each record that is due has a source, which stands no later in the order of the records.
pub fn due_is_sourced()
    ensures { DueIsSourced }
{}

/// Where no source that is not worked off comes before the first record that is to come, the run goes on by it.
pub fn first_settled_is_next()
    ensures { FirstSettledIsNext }
{}

/// Where nothing is to come, and no source that is not worked off is before a time, the records are the run up to it.
pub fn nothing_settled_is_all()
    ensures { NothingSettledIsAll }
{}

/// Where a device has acted, each task that is still due at the moment stands behind what it did.
pub fn acts_grow()
    ensures { ActsGrow }
{}

/// What a device does at one moment, one act after the other, is at most two emissions, a sending, and the dispatches
/// of its rows.
pub fn acts_are_few()
    ensures { ActsAreFew }
{}

/// At most two frames of a compression master are due at once and have not waited for as long as the precision.
pub fn few_are_emitted()
    ensures { FewAreEmitted }
{}

/// The run goes on by the record of an event that befalls.
pub fn run_goes_on_by_event()
    ensures { RunGoesOnByEvent }
{}

/// The run up to the next event is the same under this event and those behind it.
pub fn run_stays_under_more()
    ensures { RunStaysUnderMore }
{}

/// Where a world stands and its first settled record is given, it stands behind that.
pub fn given_step<C: Clock, M: Machine + Drop>()
    ensures { GivenStep C.reading M.stands }
{}

/// Where nothing that a world has under way is before a place, no source that is not worked off is.
pub fn nothing_comes_before<C: Clock, M: Machine + Drop>()
    ensures { NothingComesBefore C.reading M.stands }
{}
