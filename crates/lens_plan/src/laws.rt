ghost use Rattle.lens_plan.specs.Laws.{DoneIsPlanned, ExcessIsTrue, ImpossibleIsTrue, PlanIsAccepted, ServedComeInTime};

/// The text of a plan that is done: with the network file it means an accepted network, which is that of the file with
/// virtual links and rows added, and serves the messages. And in each run of it under events within the fault hypothesis
/// each frame of these virtual links that is owed is delivered exactly once, by the time that its message gives.
///
/// Where a message is told to be impossible, no accepted network with virtual links and rows added to that of the file
/// serves it, whatever they are; where the messages are told to want more than rule 1 or rule 24 lets be, none serves
/// them all.
///
/// And where there is a plan, the network that its lines describe keeps all rules.
pub fn plan_law()
    ensures planned { DoneIsPlanned }
    ensures time { ServedComeInTime }
    ensures impossible { ImpossibleIsTrue }
    ensures excess { ExcessIsTrue }
    ensures accepted { PlanIsAccepted }
{}
