use audit_devices::Standings;
use audit_law::events::EventHistory;
use net_plan::Network;

/// A run: what its events have set, and what its records show of the devices.
#[derive(Clone, Copy)]
pub struct Course<'a> {
    pub network: &'a Network,
    pub events: &'a EventHistory,
    pub standings: &'a Standings,
    /// The time of the end, in units of 2^-16 ns. It is at most 2^60.
    pub until: u64,
}
