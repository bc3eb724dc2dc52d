ghost use Rattle.precision_law.specs.traffic.Latency.{DeliveriesKeepPace, DeliveriesTakeTheirTime};
ghost use Rattle.precision_law.specs.traffic.Owing.{DueFramesAreOwed, DueFramesCome};
ghost use Rattle.precision_law.specs.traffic.Ports.{OwedFramesCome, PortsStayApart, RunsAreSafe};

/// While a time-triggered frame is on a port of a correct device, no other frame is.
pub fn ports_stay_apart()
    ensures { PortsStayApart }
{}

/// Each frame that is owed is delivered exactly once, in its window, as its sender dispatched it.
pub fn owed_frames_come()
    ensures { OwedFramesCome }
{}

/// A frame whose sender and receiver are on for three cycles, and are not broken at the end of its last window, is owed,
/// and so delivered.
pub fn due_frames_come()
    ensures owed { DueFramesAreOwed }
    ensures delivered { DueFramesCome }
{}

/// A frame is delivered by a row so long behind its dispatch on another as the schedule says, but for the jitter of the
/// last wire and less than the precision.
pub fn deliveries_take_their_time()
    ensures { DeliveriesTakeTheirTime }
{}

/// Two frames of a virtual link that are delivered by one row come as many cycles apart as they are of, but for the
/// jitter of its wire, the spread of the dispatches, and an error for each cycle and two more.
pub fn deliveries_keep_pace()
    ensures { DeliveriesKeepPace }
{}

/// Each run of an accepted network under events within the fault hypothesis is safe: its clocks agree, its ports are
/// apart, and its frames are delivered.
pub fn runs_are_safe()
    ensures { RunsAreSafe }
{}
