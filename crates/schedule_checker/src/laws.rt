ghost use Rattle.schedule_checker.specs.Refusals.{RefusalIsOne};

/// A network breaks one rule first, and at one place.
pub fn refusal_is_one()
    ensures { RefusalIsOne }
{}
