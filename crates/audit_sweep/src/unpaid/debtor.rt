use crate::records::KeptRecords;
use crate::records::places::Places;
use crate::unpaid::Payments;
use audit_devices::Standings;
use audit_law::events::EventHistory;
use net_plan::Network;

/// The records of a report, each due given those before it, which owe further ones up to a time; and what is known of
/// them.
#[derive(Clone, Copy)]
pub struct Debtor<'a> {
    pub network: &'a Network,
    pub history: &'a EventHistory,
    pub records: &'a KeptRecords,
    pub standings: &'a Standings,
    pub places: &'a Places,
    pub payments: &'a Payments,
    /// The world time, in units of 2^-16 ns.
    pub until: u64,
}
