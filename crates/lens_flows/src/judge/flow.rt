use net_plan::{DeviceId, VirtualLink, VlId};

/// A virtual link with one of its receivers.
#[derive(Clone, Copy, PartialEq, Eq)]
pub struct Flow {
    pub vl: VlId,
    pub of_vl: VirtualLink,
    pub device: DeviceId,
    /// How far into the cycle the last of its windows at the receiver ends, in units of 2^-16 ns.
    pub last: u64,
    /// Where the rows of the virtual link stand.
    pub rows: RowSpan,
}

/// Rows of a network from a place on, and before another.
#[derive(Clone, Copy, PartialEq, Eq)]
pub struct RowSpan {
    pub from: u32,
    pub to: u32,
}
