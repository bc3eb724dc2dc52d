//! A network that is accepted, under events within the fault hypothesis: what the laws on runs ask of both can be met.

ghost use Rattle.{net_plan.specs.Ranges.IsInRange, run_law.specs.law.FirstLaws.IsLawful};
ghost use Rattle.precision_law.specs.traffic.existence.worked.Worked.{rough_day, rough_events, worked};
ghost use Rattle.{precision_law.specs.traffic.safety.Under.IsUnder, schedule_tables.specs.Rules.KeepsRules};

/// The worked network is in range, and keeps all rules.
pub fn worked_is_accepted()
    ensures range { IsInRange worked }
    ensures rules { KeepsRules worked }
{}

/// The events of a day on which a master breaks and a link of a channel is cut meet what the laws on the runs of the
/// program ask of a network and its events; and the day, with the clocks of the program, meets what the laws on all
/// runs ask of a network, its events and its clocks.
pub fn rough_day_is_lawful()
    ensures under { IsUnder worked rough_events }
    ensures lawful { IsLawful rough_day }
{}
