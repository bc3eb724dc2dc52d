ghost use Rattle.report_text.specs.Laws.{OneReport};

/// One report, as a law: two lists of records of a network that have the same report are equal.
pub fn one_report()
    ensures { OneReport }
{}
