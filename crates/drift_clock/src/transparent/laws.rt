ghost use Rattle.drift_clock.specs.transparent.{Hops.PermanentInTime, Points.WaitsForPoint};

/// A frame over at most eight hops is permanent `dmax` after it was given, up to the path error.
pub fn path_law()
    ensures { PermanentInTime }
{}

/// From arrival to permanence a device's reading advances by what the frame's clock lacks of `dmax`.
pub fn waiting_law()
    ensures { WaitsForPoint }
{}
