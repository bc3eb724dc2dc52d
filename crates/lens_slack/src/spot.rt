//! Where a network has a number that a rule bounds, and what it has and wants there.
use net_plan::{DeviceId, RowId, VlId};
use tte_units::frames::Channel;

/// A number of the network that a rule bounds from below.
#[derive(Clone, Copy, PartialEq, Eq)]
pub enum BoundedNumber {
    /// Dmax, for the path of a device on a channel.
    Path(DeviceId, Channel),
    /// The spread of the starts.
    Settled,
    /// The precision.
    Precision,
    /// The place of the correction.
    Correction,
    /// Where the schedule begins.
    Begin,
    /// The cycle's length, for the beginning of the schedule.
    End,
    /// The cycle's length, for the window of a row.
    Window(RowId),
    /// The offset of the later of two rows of a port, of which this row is the one and an earlier row the other.
    Gap(RowId),
    /// The offset of a row, for when its frame comes.
    Coming(RowId),
}

/// What is measured over all places: each has one line.
#[derive(Clone, Copy, PartialEq, Eq)]
pub enum Measure {
    Paths,
    Settled,
    Precision,
    Correction,
    Begin,
    End,
    Windows,
    Gaps,
    Comings,
}

/// What a line says beside the two numbers.
#[derive(Clone, Copy, PartialEq, Eq)]
pub enum Beside {
    Nothing,
    /// It is a compression's time that is wanted.
    Calc,
    /// The row comes behind one of this virtual link.
    Behind(VlId),
    /// The row comes before one of this virtual link.
    Before(VlId),
}

/// What the network has at a spot, and what a rule wants there at least, in units of 2^-16 ns.
#[derive(Clone, Copy, PartialEq, Eq)]
pub struct Finding {
    pub spot: BoundedNumber,
    pub has: u64,
    pub wants: u64,
    pub beside: Beside,
}
