use net_plan::{DeviceId, LinkId};

/// What a record says of something that comes from another: at which device, by which link and when.
#[derive(Clone, Copy)]
pub(crate) struct Passage {
    pub(crate) device: DeviceId,
    pub(crate) link: LinkId,
    /// The number of the other record.
    pub(crate) cause: u64,
    /// The world time, in units of 2^-16 ns.
    pub(crate) time: u64,
}
