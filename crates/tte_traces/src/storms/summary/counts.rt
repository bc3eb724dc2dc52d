/// How many records of each kind a run has.
#[derive(Clone, Copy, PartialEq, Eq)]
pub struct Counts {
    /// The records of all kinds.
    pub records: u64,
    /// The frames of collections that are sent.
    pub compressed: u64,
    /// The corrections of clocks.
    pub corrected: u64,
    /// The frames that meet a cut way.
    pub lost: u64,
    /// The dispatches of time-triggered frames.
    pub tt_sent: u64,
    /// The time-triggered frames that switches take.
    pub accepted: u64,
    /// The time-triggered frames that end systems take.
    pub delivered: u64,
    /// The frames that are dropped.
    pub dropped: Drops,
}

/// How many frames are dropped for each reason.
#[derive(Clone, Copy, Debug, PartialEq, Eq)]
pub struct Drops {
    pub off: u64,
    /// What is no protocol control frame, in whatever way.
    pub refused: u64,
    pub cold_start: u64,
    pub domain: u64,
    pub member: u64,
    pub too_old: u64,
    pub gate: u64,
    pub cycle: u64,
    pub unsynchronised: u64,
    pub unknown: u64,
    pub wrong_length: u64,
    pub early: u64,
    pub late: u64,
    pub repeated: u64,
}

impl Counts {
    /// The counts of no records.
    pub const NONE: Counts = Counts {
        records: 0,
        compressed: 0,
        corrected: 0,
        lost: 0,
        tt_sent: 0,
        accepted: 0,
        delivered: 0,
        dropped: Drops {
            off: 0,
            refused: 0,
            cold_start: 0,
            domain: 0,
            member: 0,
            too_old: 0,
            gate: 0,
            cycle: 0,
            unsynchronised: 0,
            unknown: 0,
            wrong_length: 0,
            early: 0,
            late: 0,
            repeated: 0,
        },
    };
}
