ghost use Rattle.audit_law.specs.law.DebtLaws.{ArrivalLaw, ChangeLaw, ClockLaw, DebtLaw, DepartureLaw, DispatchLaw};
ghost use Rattle.audit_law.specs.law.DebtLaws.{EmissionLaw, EventLaw, LackLaw, LossLaw, PermanenceLaw, PointLaw};
ghost use Rattle.audit_law.specs.law.{DebtLaws.{SendingLaw, SettledLaw}, FirstDebts.{FirstDebtLaw, JoinedSortsLaw}};

/// A founded list of records owes, for each frame that a record gives to a link, one record of its leaving: that it
/// left, met a cut way or was too old. What is due by a leaving is so owed, and what is so owed is due.
pub fn departure_law()
    ensures { DepartureLaw }
{}

/// It owes, for each frame that a record puts on a wire, one record of its arrival: that the frame arrived, was
/// accepted or delivered, or was dropped.
pub fn arrival_law()
    ensures { ArrivalLaw }
{}

/// It owes, for each record that changes a device's state, one record of the new state: an event that turns the device
/// on, a frame that tells it the time, or the first correction of a joiner.
pub fn change_law()
    ensures { ChangeLaw }
{}

/// It owes, for each `send` event whose way is cut, one record of the loss.
pub fn loss_law()
    ensures { LossLaw }
{}

/// It owes, where the events end, one record of the clock of each device.
pub fn clock_law()
    ensures { ClockLaw }
{}

/// It owes, for each frame that has arrived at a device that waits for it, one record at its point: that it is
/// permanent, or was dropped there.
pub fn permanence_law()
    ensures { PermanenceLaw }
{}

/// It owes, for each cluster of a compression master whose emission the reading reaches, one record of what is sent.
pub fn emission_law()
    ensures { EmissionLaw }
{}

/// It owes, for each cycle whose beginning the clock of a synchronised master reaches, one record that it sends.
pub fn sending_law()
    ensures { SendingLaw }
{}

/// It owes, for each row whose offset the clock of a synchronised device reaches with a frame at hand, one record of
/// the dispatch, or of the loss on a way that is cut.
pub fn dispatch_law()
    ensures { DispatchLaw }
{}

/// It owes, for each correction point that the clock of a device reaches, but that by which a joiner clears, one
/// record: of the correction, or of the state that a clique brings.
pub fn point_law()
    ensures { PointLaw }
{}

/// A founded list of records owes, for each event, one record of it.
pub fn event_law()
    ensures { EventLaw }
{}

/// In a list whose records are all sound each pays a debt, at the time at which it falls due. The list lacks exactly
/// what its unpaid debts want: a record that is lacking pays a debt that none of the list pays, and for each such debt
/// a record is lacking. It is the run exactly where each debt is paid.
pub fn debt_law()
    ensures { DebtLaw }
{}

/// Where the records of a list are all sound, the first time at which one is lacking is the first at which a debt falls
/// due that none of them pays.
pub fn lack_law()
    ensures { LackLaw }
{}

/// What a list of records owes up to a time is told by its records up to then: later ones change none of it.
pub fn settled_law()
    ensures { SettledLaw }
{}

/// The first time at which a debt of two sorts together is not paid is the earlier of theirs, so that of all kinds is
/// the earliest of the kinds'. The first time at which any debt is not paid is that of the first debt of all; where
/// there is none, a list whose records are all sound lacks nothing.
pub fn first_debt_law()
    ensures joined { JoinedSortsLaw }
    ensures all { FirstDebtLaw }
{}
