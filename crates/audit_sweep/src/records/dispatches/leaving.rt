ghost use Rattle.std.specs.Prelude.{◌^◌, ◌↔◌, ◌≡◌, ◌≤◌, IsTrue};
ghost use Rattle.net_plan.specs.Ranges.{IsWithin};
ghost use Rattle.audit_sweep.specs.records.dispatches.{Dispatched.IsRowFor, Leaving.leaving_by};

use net_plan::{DeviceId, LinkId, VlId};
use schedule_tables::Entry;

/// A frame of a virtual link that is put on a link.
#[derive(Clone, Copy)]
pub struct Dispatch {
    pub link: LinkId,
    /// The record by which a switch took it, or 0 at the sender.
    pub cause: u64,
    pub vl: VlId,
    pub cycle: u32,
}

/// A row by which frames of a virtual link leave a device, as far as dispatches are judged by it.
#[derive(Clone, Copy)]
pub struct LeavingRow {
    pub device: DeviceId,
    pub vl: VlId,
    /// The place in the device's cycle.
    pub offset: u64,
    /// The virtual link occurs in the cycles of this phase modulo the period.
    pub period: u32,
    pub phase: u32,
    pub sender: DeviceId,
}

impl LeavingRow {
    /// What is kept of the entry.
    pub fn of(entry: &Entry) -> LeavingRow
        requires { IsWithin 0 (2 ^ 40) entry.now.row.offset }
        ensures { result ≡ leaving_by entry.now }
    {
        LeavingRow {
            device: entry.source(),
            vl: entry.row.vl,
            offset: entry.row.offset.amount(),
            period: entry.vl.period,
            phase: entry.vl.phase,
            sender: entry.vl.sender,
        }
    }

    /// Do the row's frames leave the device, and are they of the virtual link, which occurs in the cycle?
    pub(crate) fn is_for(&self, device: DeviceId, dispatch: &Dispatch) -> bool
        requires { 1 ≤ self.now.period }
        ensures { IsTrue result ↔ IsRowFor self.now device dispatch.now }
    {
        self.device.0 == device.0
            && self.vl.0 == dispatch.vl.0
            && 1 <= dispatch.cycle
            && dispatch.cycle % self.period == self.phase
    }
}
