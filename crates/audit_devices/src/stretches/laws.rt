ghost use Rattle.audit_devices.specs.stretches.Rising.{RisingLaw};

/// In a list of records that are due one after the other in an audit, where no clock ever falls, the frames that are
/// permanent at a compression master give their points in order.
pub fn points_rise()
    ensures { RisingLaw }
{}
