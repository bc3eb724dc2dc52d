ghost use Rattle.world_law.specs.steps.{Befalling.BefellStep, Ending.CorrectionEnds};
ghost use Rattle.world_law.specs.steps.Repeating.{ActsAddUp, ActsAreBounded, ActsBringFew, NoActYet};
ghost use Rattle.world_law.specs.steps.Steps.{AppliedStep, Begun, PassedStep};
ghost use Rattle.world_law.specs.steps.Turns.{ActedTurn, ClockTurn, HeardTurn, LeftTurn, RipenedTurn};

use drift_clock::Clock;
use run_law::Machine;

/// A fresh world stands for the run of no records under no events.
pub fn begun<C: Clock, M: Machine + Drop>()
    ensures { Begun C.reading M.stands }
{}

/// Where a world stands and time passes, it stands at the later time.
pub fn passed_step<C: Clock, M: Machine + Drop>()
    ensures { PassedStep C.reading M.stands }
{}

/// Where a world stands and the clock of a device is shown at the end, it stands behind it, with its record given.
pub fn clock_turn<C: Clock, M: Machine + Drop>()
    ensures { ClockTurn C.reading M.stands }
{}

/// Where a world stands and a frame at a port leaves, it stands behind it, with the record that stands there given.
pub fn left_turn<C: Clock, M: Machine + Drop>()
    ensures { LeftTurn C.reading M.stands }
{}

/// Where a world stands and a frame on a wire arrives, it stands behind it, with the record that stands there given.
pub fn heard_turn<C: Clock, M: Machine + Drop>()
    ensures { HeardTurn C.reading M.stands }
{}

/// Where a world stands and the first frame that waits is permanent, it stands behind it, with the record that stands
/// there given.
pub fn ripened_turn<C: Clock, M: Machine + Drop>()
    ensures { RipenedTurn C.reading M.stands }
{}

/// Where a world stands and a device acts, it stands behind it, with the record that stands there given.
pub fn acted_turn<C: Clock, M: Machine + Drop>()
    ensures { ActedTurn C.reading M.stands }
{}

/// Where a world stands and an event befalls, before all else of its instant, it stands again.
pub fn applied_step<C: Clock, M: Machine + Drop>()
    ensures { AppliedStep C.reading M.stands }
{}

/// Where a world stands and the outcomes of the instant's events are pending, it stands behind the events once they are
/// put in.
pub fn befell_step<C: Clock, M: Machine + Drop>()
    ensures { BefellStep C.reading M.stands }
{}

/// Where a device has come to its correction point, nothing more is due of it at the instant.
pub fn correction_ends<C: Clock, M: Machine + Drop>()
    ensures { CorrectionEnds C.reading M.stands }
{}

/// A machine that acts again and again at one moment: how often it has acted.
pub fn acts_add_up<M: Machine + Drop>()
    ensures first { NoActYet M.stands }
    ensures more { ActsAddUp M.stands }
{}

/// A machine of a world, for which something is due, acts at most so often at the instant.
pub fn acts_are_bounded<C: Clock, M: Machine + Drop>()
    ensures { ActsAreBounded C.reading M.stands }
{}

/// An act brings two records at most.
pub fn acts_bring_few()
    ensures { ActsBringFew }
{}
