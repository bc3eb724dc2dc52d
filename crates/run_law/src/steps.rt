use crate::Reason;
use compression::Compressed;
use net_plan::{RowId, VlId, Way};
use sync_state::Verdict;
use tte_units::Units;
use tte_units::frames::Pcf;

/// An instant, as a device meets it.
#[derive(Clone, Copy, PartialEq, Eq)]
pub struct Moment {
    /// The world time, in units of 2^-16 ns.
    pub time: Units,
    /// What the device's clock reads then.
    pub reading: Units,
}

/// What a device does by itself.
#[derive(Clone, Copy)]
pub enum Act {
    /// A master sends this frame by both links.
    Send(Pcf),
    /// A compression master sends the frame of a collection, and hears it so.
    Emit(Compressed, Ripe),
    /// The correction point of this cycle comes to this.
    Correct(u32, Verdict),
    /// The row's frame of this cycle is dispatched.
    Dispatch(RowId, u32),
}

/// What becomes of a frame that arrives.
#[derive(Clone, Copy, PartialEq, Eq)]
pub enum Arrival {
    /// It is dropped.
    Dropped(Reason),
    /// It waits until the reading is at least this point.
    Waits(Pcf, Units),
    /// It is given on this way, up or down.
    Passes(Pcf, Way),
    /// It is given on this way, and waits as well.
    PassesAndWaits(Pcf, Way, Units),
    /// A switch takes it as a frame of this virtual link, in this cycle of its own.
    Accepted(VlId, u32),
    /// An end system takes it as a frame of this virtual link, in this cycle of its own.
    Delivered(VlId, u32),
}

/// What becomes of a protocol control frame when it is permanent.
#[derive(Clone, Copy, PartialEq, Eq)]
pub enum Ripe {
    /// It opens a collection.
    Opened,
    /// It joins the open collection.
    Joined,
    /// The open collection has a point of its master already.
    Repeat,
    /// It is heard within the precision of its time.
    Within,
    /// It is heard at another time.
    Outside,
    /// It tells the device the time.
    Integrates,
    /// It has too few members, or too late a cycle, to tell the time.
    Ignored,
    /// It is dropped.
    Dropped(Reason),
}
