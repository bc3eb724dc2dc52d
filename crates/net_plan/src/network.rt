use crate::{Devices, Links, Rows, VirtualLinks};
use tte_units::Units;
use tte_units::frames::Mac;

/// A network as its designer writes it. Times are in units of 2^-16 ns.
#[derive(Drop)]
pub struct Network {
    /// The version of the file, 1 or 2.
    pub version: u32,
    /// The length of a cycle, from 2^32 to 2^40.
    pub cycle: Units,
    /// The greatest magnitude of a clock's rate, in parts per 10^9, up to 1,000,000.
    pub rho: u32,
    /// The step of the clocks' readings, from 1 to 1,048,576.
    pub grain: Units,
    /// The greatest delay of a protocol control frame, from 1 to 2^40.
    pub dmax: Units,
    /// The time that a compression takes, from 1 to 2^40.
    pub calc: Units,
    /// How far apart the local clocks may begin, up to 2^40.
    pub settled: Units,
    /// How far apart the local clocks may ever be, from 1 to 2^40.
    pub precision: Units,
    /// The place of the correction in a cycle, up to 2^40.
    pub correction: Units,
    /// Where the schedule begins in a cycle, up to 2^40.
    pub tt_start: Units,
    /// How many members a frame needs in order to count, from 1 to 31.
    pub sync_threshold: u32,
    /// The sync priority.
    pub priority: u8,
    /// The sync domain.
    pub domain: u8,
    /// Where protocol control frames are sent.
    pub pcf_destination: Mac,
    /// The marker of time-triggered frames.
    pub marker: u32,
    pub device: Devices,
    pub link: Links,
    pub vl: VirtualLinks,
    pub row: Rows,
}
