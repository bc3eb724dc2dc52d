ghost use Rattle.precision_law.specs.falls.Laws.{ClocksDoNotFallBack, CorrectionsAreSmall};

/// What a correct synchronised device's clock shows is at most the precision above what that of any such device shows
/// at the same time or later.
pub fn clocks_do_not_fall_back()
    ensures { ClocksDoNotFallBack }
{}

/// Each correction of a clock is by at most the precision, forwards or backwards.
pub fn corrections_are_small()
    ensures { CorrectionsAreSmall }
{}
