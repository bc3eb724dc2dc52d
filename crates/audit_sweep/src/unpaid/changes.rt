//! The change of state that a record brings, where no record tells of it.

ghost use Rattle.std.specs.Prelude.{◌↔◌, ◌≡◌, IsTrue, List, Some, length, ℕ};
ghost use Rattle.{audit_devices.specs.Keeping.device_count, net_plan.specs.declared.event.Event.Event};
ghost use Rattle.{audit_law.specs.law.FirstDebts.TellsUnpaid, audit_sweep.specs.unpaid.Changing.HasChange};
ghost use Rattle.audit_sweep.specs.{records.Keeping.record_of, unpaid.Debtors.{AreKnown, scenario_of}};
ghost use Rattle.{net_plan.specs.Belonging.HasDevice, sync_state.specs.declared.state.State.TheVariants.Joining};
ghost use Rattle.run_law.specs.{device.States.state_before, records.Happenings.{Happening, numbered, time_of}};
ghost use Rattle.audit_law.specs.law.Owed as debts;

use crate::records::{Kept, KeptRecord};
use crate::unpaid::Debtor;
use net_plan::DeviceId;
use sync_state::State;

impl Debtor<'_> {
    /// When the record of this number changes a device's state, if no record tells of it.
    pub(crate) fn unpaid_change(&self, number: u64) -> Option<u64>
        requires standing { device_count self.now.standings.now ≡ length self.now.network.now.device }
        ensures { (befallen : List Event) (hs : List Happening) → AreKnown befallen hs self.now
            → TellsUnpaid (scenario_of self.now befallen) hs self.now.until (debts.change number) result }
    {
        let kept = match self.records.get(number) {
            Some(kept) => kept,
            None => return None,
        };
        if self.payments.of(number).change {
            return None;
        }
        if self.until < kept.time {
            return None;
        }
        if !self.changes_state(kept) {
            return None;
        }
        Some(kept.time)
    }

    // Does the record change a device's state?
    fn changes_state(&self, kept: &KeptRecord) -> bool
        requires standing { device_count self.now.standings.now ≡ length self.now.network.now.device }
        ensures { (befallen : List Event) (hs : List Happening) (number : ℕ) (h : Happening)
            → AreKnown befallen hs self.now → numbered hs number ≡ Some h → kept.now ≡ record_of h
            → IsTrue result ↔ HasChange (scenario_of self.now befallen) hs number (time_of h) }
    {
        match kept.kept {
            Kept::On(device) => !self.history.is_broken(device, kept.time),
            Kept::Permanent(_, tells) => tells,
            Kept::Compressed(_, tells) => tells,
            Kept::Corrected(device) => self.is_joining(device, kept.time),
            Kept::Send(_, _)
            | Kept::Arrived(_, _, _)
            | Kept::Sent(_)
            | Kept::Left(_, _)
            | Kept::TtSent(_, _)
            | Kept::Accepted(_, _, _)
            | Kept::Delivered(_, _, _)
            | Kept::Other => false,
        }
    }

    // Is the device joining when something comes at the time?
    fn is_joining(&self, device: DeviceId, time: u64) -> bool
        requires standing { device_count self.now.standings.now ≡ length self.now.network.now.device }
        ensures { (befallen : List Event) (hs : List Happening) → AreKnown befallen hs self.now
            → HasDevice self.now.network.now device
            → IsTrue result ↔ (state_before (scenario_of self.now befallen) hs device time ≡ Joining) }
    {
        if self.network.device.as_slice().len() <= device.0 as usize {
            return false;
        }
        let turned_on = self.history.is_turned_on_at(device, time);
        is_joining(
            self.standings
                .before_time(device, time)
                .state_before(turned_on),
        )
    }
}

/// Is it that of a device that joins?
fn is_joining(state: State) -> bool
    ensures { IsTrue result ↔ (state ≡ Joining) }
{
    matches!(state, State::Joining)
}
