ghost use Rattle.precision_law.specs.Dispatches.{DispatchesHalve, DispatchesStayNear};
ghost use Rattle.precision_law.specs.IdealClocks.{ClocksKeepTheSpan, ClocksKeepTheirCycles, ValuesAreReachedOnTime};
ghost use Rattle.precision_law.specs.{Joined.JoinersComeIn, Mending.{MendedChannelsComeIn, MendedRelaysComeIn}};
ghost use Rattle.precision_law.specs.Precision.{ClocksStayTogether, TimeIsKept};
ghost use Rattle.precision_law.specs.{
  Progress.{EndSystemsComeIn, EndSystemsComeInSoon},
  WorldTime.ClocksKeepWorldTime,
};

/// The clocks of any two correct synchronised devices stay within the precision.
pub fn clocks_stay_together()
    ensures { ClocksStayTogether }
{}

/// No end system, and no switch of a channel that is not the faulty one then, loses the common time.
pub fn time_is_kept()
    ensures { TimeIsKept }
{}

/// An end system that is on is synchronised from three cycles later on, while it is not broken; two cycles, the
/// correction offset, the spread of the dispatches and three errors are enough.
pub fn end_systems_come_in()
    ensures soon { EndSystemsComeInSoon }
    ensures in_three_cycles { EndSystemsComeIn }
{}

/// Each switch of a channel that is whole comes in as an end system does, where no device is broken, or where the channel's
/// compression master keeps the common time.
pub fn mended_channels_come_in()
    ensures unbroken { MendedChannelsComeIn }
    ensures kept { MendedRelaysComeIn }
{}

/// The clock of a correct synchronised device keeps between two ideal clocks, which began its cycle with the first and
/// with the last dispatch of that cycle.
pub fn clocks_keep_their_cycles()
    ensures { ClocksKeepTheirCycles }
{}

/// The clock of a correct synchronised device that was last set for cycle n is behind world time by at most n + 1 errors,
/// and ahead of it by at most as much and how far apart clocks may start.
pub fn clocks_keep_world_time()
    ensures { ClocksKeepWorldTime }
{}

/// From behind the last correction of a cycle to the first of the next one, these are the ideal clocks of that cycle.
pub fn clocks_keep_the_span()
    ensures { ClocksKeepTheSpan }
{}

/// The clock of a correct synchronised device reaches each value of the schedule so far behind the dispatches of the
/// cycle as the value lies behind its beginning.
pub fn values_are_reached_on_time()
    ensures { ValuesAreReachedOnTime }
{}

/// The dispatches of a cycle by correct masters lie near one another.
pub fn dispatches_stay_near()
    ensures { DispatchesStayNear }
{}

/// From each cycle to the next the distance of the dispatches halves, but for half of how far apart clocks may start.
pub fn dispatches_halve()
    ensures { DispatchesHalve }
{}

/// The first correction of a device that joins is by what it heard alone; what it dispatches lies near the others'
/// dispatches, and its clock is close to theirs.
pub fn joiners_come_in()
    ensures { JoinersComeIn }
{}
