//! Over how many rows the frames of a virtual link come to its receivers.
ghost use Rattle.std.specs.Prelude.{◌<◌, ◌↔◌, ◌≡◌, IfNone, IfSome, IsTrue, length};
ghost use Rattle.lens_latency.specs.Trips.{IsFirstOf};
ghost use Rattle.lens_sheet.specs.{Going.{ComesByRow, Enters, IsRowBefore, IsSomeEntry, LeadTo}, Ways.AreHops};
ghost use Rattle.net_plan.specs.{Bounds.IsGreatest, Places.IsEndSystem, Ranges.IsInRange};
ghost use Rattle.schedule_tables.specs.{Entries.{IsEntryInRange, source_of, target_of}, Rules.KeepsRules};

use crate::weights::greater;
use lens_latency::is_end_system;
use net_plan::{DeviceId, Network, RowId, VlId};
use schedule_tables::{Entry, entry_of};

/// Is the row the virtual link's, and does it enter the device?
fn enters(vl: VlId, device: DeviceId, entry: &Entry) -> bool
    ensures { IsTrue result ↔ Enters vl device entry.now }
{
    entry.row.vl == vl && entry.target() == device
}

/// The first row of the virtual link that enters the device.
fn row_into(network: &Network, vl: VlId, device: DeviceId) -> Option<Entry>
    requires { IsInRange network.now }
    ensures first { IsFirstOf network.now (Enters vl device) result }
    ensures range { IfSome result (IsEntryInRange network.now) }
{
    let rows = network.row.as_slice().len() as u32;
    'rows: for number in 0..rows {
        let entry = entry_of(network, RowId(number));
        if enters(vl, device, &entry) {
            return Some(entry);
        }
    }
    None
}

/// Does the row leave its virtual link's sender?
fn leaves_sender(entry: &Entry) -> bool
    ensures { IsTrue result ↔ (source_of entry.now ≡ entry.now.vl.sender) }
{
    entry.source() == entry.vl.sender
}

/// The row by which the frames of the entry's row come to where it begins. It is None exactly where it leaves the
/// sender.
fn row_before(network: &Network, entry: &Entry) -> Option<Entry>
    requires range { IsInRange network.now }
    requires rules { KeepsRules network.now }
    requires row { IsSomeEntry network.now entry.now }
    ensures before { IfSome result (IsRowBefore network.now entry.now) }
    ensures none { IfNone result (source_of entry.now ≡ entry.now.vl.sender) }
    ensures range { IfSome result (IsEntryInRange network.now) }
{
    if leaves_sender(entry) {
        return None;
    }
    row_into(network, entry.row.vl, entry.source())
}

/// How many rows lead to the end of the entry's row.
fn rows_to(network: &Network, entry: &Entry) -> u64
    requires range { IsInRange network.now }
    requires rules { KeepsRules network.now }
    requires row { IsSomeEntry network.now entry.now }
    requires row_range { IsEntryInRange network.now entry.now }
    ensures { LeadTo network.now entry.now result }
{
    let mut at = *entry;
    let mut rows = 1;
    'rows: while let Some(before) = row_before(network, &at) {
        at = before;
        rows += 1;
    }
    rows
}

/// Is the row the virtual link's, and does it enter an end system?
fn is_last(network: &Network, vl: VlId, entry: &Entry) -> bool
    ensures { IsTrue result ↔ ((entry.now.row.vl ≡ vl) × IsEndSystem network.now (target_of entry.now)) }
{
    entry.row.vl == vl && is_end_system(network, entry.target())
}

/// How many rows lead to the end of this row, if it is the virtual link's and enters an end system.
fn rows_by(network: &Network, vl: VlId, row: RowId) -> u64
    requires range { IsInRange network.now }
    requires rules { KeepsRules network.now }
    requires there { row.0 < length network.now.row }
    ensures { IsGreatest (ComesByRow network.now vl row.0) result }
{
    let entry = entry_of(network, row);
    if is_last(network, vl, &entry) {
        rows_to(network, &entry)
    } else {
        0
    }
}

/// The greatest count of rows on a way of the virtual link to a receiver.
pub(crate) fn hops_of(network: &Network, vl: VlId) -> u64
    requires range { IsInRange network.now }
    requires rules { KeepsRules network.now }
    ensures { AreHops network.now vl result }
{
    let mut hops = 0;
    let rows = network.row.as_slice().len() as u32;
    'rows: for number in 0..rows {
        hops = greater(hops, rows_by(network, vl, RowId(number)));
    }
    hops
}
