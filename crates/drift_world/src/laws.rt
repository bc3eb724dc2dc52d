ghost use Rattle.drift_world.specs.Running.{RunsBehindEvents};

use drift_clock::Clock;
use run_law::Machine;

/// Where a world stands, and nothing of the present instant but events is worked off, the records that it gave are the
/// run behind these events.
pub fn runs_behind_events<C: Clock, M: Machine + Drop>()
    ensures { RunsBehindEvents C.fresh C.after_step C.reading M.stands }
{}
