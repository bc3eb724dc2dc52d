ghost use Rattle.audit_law.specs.law.{Laws.{AuditLaws, GapLaw, NextLaw}, SameRuns.SameRuns};

/// A list of records is the run exactly where each record is sound and none is lacking. A sound list has no unfounded
/// record, and no list has two that are the first.
pub fn audit_laws()
    ensures { AuditLaws }
{}

/// What a sound list of records lacks is what is due, given a front of it, behind that and before all that the list
/// has left; and each of its records has no cause, or one before it.
pub fn gap_law()
    ensures { GapLaw }
{}

/// A record goes on a run exactly where it is its next.
pub fn next_law()
    ensures { NextLaw }
{}

/// Where the clocks keep the clock laws, a list of records is the run by what is due in an audit exactly where it is
/// the run by what is due in a run: it has a record for each correction point that a clock comes to, but that by which
/// a joiner clears, and this one both count.
pub fn same_runs_law()
    ensures { SameRuns }
{}
