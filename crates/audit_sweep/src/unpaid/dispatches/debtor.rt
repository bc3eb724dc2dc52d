use crate::records::dispatches::Exits;
use crate::records::places::Places;
use audit_devices::{Standings, Takings};
use audit_law::events::EventHistory;
use net_plan::Network;

/// The records of a report, which owe those of the dispatches up to a time; and what is known of them.
#[derive(Clone, Copy)]
pub struct RowDebtor<'a> {
    pub network: &'a Network,
    pub events: &'a EventHistory,
    pub exits: &'a Exits,
    pub standings: &'a Standings,
    pub takings: &'a Takings,
    pub places: &'a Places,
    /// The world time, in units of 2^-16 ns. It is at most 2^60.
    pub until: u64,
}

/// A frame of a row.
#[derive(Clone, Copy)]
pub(crate) struct RowFrame {
    /// The record by which a switch took it, or 0 at the sender.
    pub(crate) cause: u64,
    pub(crate) cycle: u64,
}
