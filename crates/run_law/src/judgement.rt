/// What becomes of a protocol control frame that is permanent (SAE AS6802).
#[derive(Clone, Copy, PartialEq, Eq)]
pub enum Judgement {
    /// It opens a collection.
    Opened,
    /// It joins the open collection.
    Joined,
    /// The open collection has a point of its master already.
    Repeat,
    /// It is heard within the precision of its time.
    Within,
    /// It is heard at another time.
    Outside,
    /// It tells the device the time.
    Integrates,
    /// It has too few members, or too late a cycle, to tell the time.
    Ignored,
}

/// Why a device changes its state (SAE AS6802).
#[derive(Clone, Copy, PartialEq, Eq)]
pub enum Why {
    /// It is turned on.
    On,
    /// A frame tells it the time.
    Frame,
    /// Its first correction has come.
    Correction,
    /// No channel had a frame of enough masters.
    SyncClique,
    /// At least as many masters were heard at another time as at its own.
    AsyncClique,
}

/// Why a frame is dropped.
#[derive(Clone, Copy, PartialEq, Eq)]
pub enum Reason {
    /// The device is off or broken.
    Off,
    /// The type is that of a cold start.
    ColdStart,
    /// The priority or the domain is another.
    Domain,
    /// The members are not those of the master at the link.
    Member,
    /// The delay exceeds the greatest.
    Old,
    /// The frame comes at a place of the cycle at which none is expected.
    Gate,
    /// The frame is of another cycle.
    Cycle,
    /// The device has no common time.
    Unsynchronised,
    /// The frame is of no virtual link that comes by this link.
    Unknown,
    /// The length is not that of the virtual link.
    Length,
    /// The frame comes before its window, or in a cycle without one.
    Early,
    /// The frame comes behind its window.
    Late,
    /// The virtual link's frame of this cycle was taken before.
    Repeat,
    /// There are so many octets, and not 60.
    RefusedLength(u32),
    /// The EtherType is that of no frame.
    RefusedEtherType,
    /// The reserved octet at this offset is not zero.
    RefusedReserved(u8),
    /// Octet 28, which is this one, names no type of a protocol control frame.
    RefusedKind(u8),
}
