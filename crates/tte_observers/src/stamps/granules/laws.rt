ghost use Rattle.tte_observers.specs.stamps.granules.Laws.{StampsAgree, StampsAreOfLocals, StampsTellOrder};

/// A device's stamp of a line is that of its local clock there, and there is none where it is not correct and
/// synchronised.
pub fn stamps_are_of_locals()
    ensures { StampsAreOfLocals }
{}

/// Any two stamps of one line of a trace differ by at most one.
pub fn stamps_agree()
    ensures { StampsAgree }
{}

/// Where a stamp of a line is at least two more than a stamp of another, its line is of a later time.
pub fn stamps_tell_order()
    ensures { StampsTellOrder }
{}
