use tte_units::Units;

/// What a correction point comes to.
#[derive(Clone, Copy, PartialEq, Eq)]
pub enum Verdict {
    /// The adjustment has grown by this.
    Corrected(Units),
    /// No channel had a frame of enough masters: the device is alone.
    SyncClique,
    /// At least as many masters were heard at another time as at this device's.
    AsyncClique,
    /// The cycle is the one whose frame the device joined by.
    Cleared,
}

/// How a device joins by a frame.
#[derive(Clone, Copy, PartialEq, Eq)]
pub struct Joined {
    /// The frame's integration cycle.
    pub cycle: u32,
    /// The adjustment by which the device's clock shows the frame's time.
    pub adjustment: Units,
}
