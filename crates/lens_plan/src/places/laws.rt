//! What the places of messages are: the earliest ones, and no others.
ghost use Rattle.lens_plan.specs.places.{Same.{BestIsOne, NoPlanIsOne, PlanIsOne, PlanOrNone}, Spacing.BestIsEarliest};

/// Of a message's rows that keep the rules behind others, in any phase, none come earlier than its best ones: where any
/// end by their limits, so do these, and their last window of a receiver ends no later.
pub fn best_is_earliest()
    ensures { BestIsEarliest }
{}

/// A message has one best attempt behind rows.
pub fn best_is_one()
    ensures { BestIsOne }
{}

/// Messages have one plan.
pub fn plan_is_one()
    ensures { PlanIsOne }
{}

/// Messages that have no plan have none for one reason, but where memory runs out.
pub fn no_plan_is_one()
    ensures { NoPlanIsOne }
{}

/// Where messages have a plan, only memory can keep it away.
pub fn plan_or_none()
    ensures { PlanOrNone }
{}
