//! The permanence of the frame of a record, where no record tells of it.

ghost use Rattle.std.specs.Prelude.{◌^◌, ◌≡◌, ◌≤◌, List, Some, pos, ℕ};
ghost use Rattle.audit_law.specs.{events.Remembering.{Remembers, RemembersSome}, law.FirstDebts.TellsUnpaid};
ghost use Rattle.audit_sweep.specs.{records.Keeping.record_of, unpaid.Debtors.{AreKnown, scenario_of}};
ghost use Rattle.audit_sweep.specs.unpaid.Waiting.{IsPermanentBy, IsReachedBy, IsWaitingAs};
ghost use Rattle.net_plan.specs.{Belonging.HasDevice, Ranges.IsInRange, declared.event.Event.Event};
ghost use Rattle.run_law.specs.records.Happenings.{Happening, numbered};
ghost use Rattle.drift_clock.specs.transparent.Points.{point_of};
ghost use Rattle.audit_law.specs.law.Owed as debts;

use crate::records::{Kept, KeptRecord};
use crate::unpaid::Debtor;
use device_rules::waits_for;
use net_plan::{DeviceId, Network};
use tte_units::Units;

/// A frame that waits at a device for its permanence.
#[derive(Clone, Copy)]
pub(crate) struct Waiting {
    pub(crate) device: DeviceId,
    /// What its transparent clock shows.
    pub(crate) clock: u64,
    /// When it arrived.
    pub(crate) since: u64,
}

impl Debtor<'_> {
    /// When the frame of the record of this number is permanent, if no record tells what became of it.
    pub(crate) fn unpaid_permanence(&self, number: u64) -> Option<u64>
        requires range { IsInRange self.now.network.now }
        requires some { RemembersSome self.now.history.now }
        requires limit { self.now.until ≤ 2 ^ 60 }
        ensures { (befallen : List Event) (hs : List Happening) → AreKnown befallen hs self.now
            → TellsUnpaid (scenario_of self.now befallen) hs self.now.until (debts.permanence number) result }
    {
        let kept = match self.records.get(number) {
            Some(kept) => kept,
            None => return None,
        };
        if self.payments.of(number).permanence {
            return None;
        }
        self.permanence(kept)
    }

    // When the frame of the record is permanent.
    fn permanence(&self, kept: &KeptRecord) -> Option<u64>
        requires range { IsInRange self.now.network.now }
        requires some { RemembersSome self.now.history.now }
        requires limit { self.now.until ≤ 2 ^ 60 }
        ensures { (befallen : List Event) (hs : List Happening) (number : ℕ) (h : Happening)
            → AreKnown befallen hs self.now → numbered hs number ≡ Some h → kept.now ≡ record_of h
            → IsPermanentBy (scenario_of self.now befallen) hs self.now.until number result }
    {
        match waiting_frame(self.network, kept) {
            Some(waiting) => self.reached(&waiting),
            None => None,
        }
    }

    // When the waiting frame is permanent, at a device that is not broken then.
    fn reached(&self, waiting: &Waiting) -> Option<u64>
        requires range { IsInRange self.now.network.now }
        requires some { RemembersSome self.now.history.now }
        requires limit { self.now.until ≤ 2 ^ 60 }
        ensures { (befallen : List Event) → Remembers self.now.network.now befallen self.now.history.now
            → HasDevice self.now.network.now waiting.now.device
            → IsReachedBy (scenario_of self.now befallen) waiting.now self.now.until result }
    {
        if self.until < waiting.since {
            return None;
        }
        let reading = self.history.reading(waiting.device, waiting.since);
        let point = point_of(reading, waiting.clock, self.network.dmax);
        let reached = self
            .history
            .reach(waiting.device, waiting.since, point, self.until);
        match reached {
            Some(time) => {
                if self.history.is_broken(waiting.device, time) {
                    None
                } else {
                    Some(time)
                }
            }
            None => None,
        }
    }
}

/// The frame of the record, if it waits at a device for its permanence.
fn waiting_frame(network: &Network, kept: &KeptRecord) -> Option<Waiting>
    ensures { (h : Happening) → kept.now ≡ record_of h → IsWaitingAs network.now h result }
{
    let (device, link, clock) = match kept.kept {
        Kept::Arrived(device, link, clock) => (device, link, clock),
        Kept::On(_)
        | Kept::Send(_, _)
        | Kept::Permanent(_, _)
        | Kept::Compressed(_, _)
        | Kept::Sent(_)
        | Kept::Corrected(_)
        | Kept::Left(_, _)
        | Kept::TtSent(_, _)
        | Kept::Accepted(_, _, _)
        | Kept::Delivered(_, _, _)
        | Kept::Other => return None,
    };
    if kept.frame.is_none() {
        return None;
    }
    if !waits_for(network, device, link) {
        return None;
    }
    Some(Waiting {
        device,
        clock,
        since: kept.time,
    })
}

/// The point of a frame with this clock that arrives at the reading.
fn point_of(reading: u64, clock: u64, dmax: Units) -> i128
    ensures { result ≡ point_of (pos reading) clock dmax.0 }
{
    i128::from(reading) + (i128::from(dmax.0) - i128::from(clock))
}
