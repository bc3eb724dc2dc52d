//! The least offset of a row behind others.
ghost use Rattle.std.specs.Prelude.{◌+◌, ◌<◌, ◌^◌, ◌↔◌, ◌≡◌, ◌≤◌, All, IfNone, IfSome, IsTrue, max};
ghost use Rattle.lens_plan.specs.places.Offsets.{AreSmall, Hits, IsHit, IsLeastOffset, Meets, StandsClear, ends_at};

use net_plan::{LinkId, Way};

/// A row by its port, the cycles in which it occurs, and how long its frame is on the port, in units of 2^-16 ns.
#[derive(Clone, Copy)]
pub(crate) struct MessageRow {
    pub(crate) link: LinkId,
    pub(crate) way: Way,
    pub(crate) period: u32,
    pub(crate) phase: u32,
    pub(crate) port: u64,
}

/// A row with its offset.
#[derive(Clone, Copy)]
pub(crate) struct Taken {
    pub(crate) slot: MessageRow,
    pub(crate) offset: u64,
}

/// Do the two rows go by one port, and occur in one cycle?
fn meets(one: &MessageRow, other: &MessageRow) -> bool
    requires period { 1 ≤ one.now.period }
    requires other { 1 ≤ other.now.period }
    ensures { IsTrue result ↔ Meets one.now other.now }
{
    let period = one.period.min(other.period);
    one.link == other.link && one.way == other.way && one.phase % period == other.phase % period
}

/// Does the row, dispatched at the offset, hit the other?
fn hits(gamma: u64, slot: &MessageRow, offset: u64, other: &Taken) -> bool
    requires slot { 1 ≤ slot.now.period }
    requires port { slot.now.port ≤ 2 ^ 40 }
    requires gamma { gamma ≤ 2 ^ 42 }
    requires offset { offset ≤ 2 ^ 60 }
    requires other { AreSmall other.now }
    ensures { IsTrue result ↔ Hits gamma slot.now offset other.now }
{
    meets(slot, &other.slot)
        && other.offset < offset + slot.port + gamma
        && offset < other.offset + other.slot.port + gamma
}

/// When a row is clear that the row, dispatched at the offset, hits: the first of such rows. It is None where it hits
/// none.
fn hit(gamma: u64, slot: &MessageRow, offset: u64, rows: &[Taken]) -> Option<u64>
    requires slot { 1 ≤ slot.now.period }
    requires port { slot.now.port ≤ 2 ^ 40 }
    requires gamma { gamma ≤ 2 ^ 42 }
    requires offset { offset ≤ 2 ^ 60 }
    requires rows { All AreSmall rows.now }
    ensures some { IfSome result (IsHit gamma slot.now offset rows.now) }
    ensures none { IfNone result (StandsClear gamma slot.now offset rows.now) }
    ensures bound { IfSome result (λ end. end ≤ 2 ^ 44) }
{
    'rows: for row in rows {
        if hits(gamma, slot, offset, row) {
            return Some(row.offset + row.slot.port + gamma);
        }
    }
    None
}

/// The least offset from `from` on at which the row stands clear of these rows: each that it meets is on the port, and
/// gamma more, before or after its own frame.
pub(crate) fn least_offset(gamma: u64, slot: &MessageRow, from: u64, rows: &[Taken]) -> u64
    requires slot { 1 ≤ slot.now.period }
    requires port { slot.now.port ≤ 2 ^ 40 }
    requires gamma { gamma ≤ 2 ^ 42 }
    requires from { from ≤ 2 ^ 60 }
    requires rows { All AreSmall rows.now }
    ensures least { IsLeastOffset gamma slot.now from rows.now result }
    ensures bound { result ≤ max from (2 ^ 44) }
{
    let mut offset = from;
    'hits: loop {
        match hit(gamma, slot, offset, rows) {
            Some(end) => offset = end,
            None => return offset,
        }
    }
}
