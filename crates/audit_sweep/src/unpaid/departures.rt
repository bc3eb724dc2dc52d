//! The leavings that a record brings, the first of which no record tells.

ghost use Rattle.std.specs.Prelude.{◌^◌, ◌↔◌, ◌≡◌, ◌≤◌, IsTrue, List, Some};
ghost use Rattle.audit_law.specs.{events.Remembering.RemembersSome, law.FirstDebts.{TellsFirst, TellsUnpaid}};
ghost use Rattle.audit_sweep.specs.records.{Keeping.record_of, places.Placing.{ArePlacesOf, HasRecordAt}};
ghost use Rattle.{audit_sweep.specs.unpaid.Debtors.{AreKnown, scenario_of}, device_rules.specs.Answers.departure_as};
ghost use Rattle.audit_sweep.specs.unpaid.{Leavings.{leaving_place, may_give}, Sorts.IsLeavingDebtOf};
ghost use Rattle.net_plan.specs.{Ranges.IsInRange, declared.event.Event.Event};
ghost use Rattle.run_law.specs.records.Happenings.{Happening, numbered};
ghost use Rattle.audit_law.specs.law.Owed as debts;

use crate::records::wires::{Leaving, departure, departure_due};
use crate::records::{Kept, KeptRecord};
use crate::unpaid::{Debtor, earlier_of};
use device_rules::{Departed, is_relay};
use net_plan::{LinkId, Network};
use run_law::plain::Place;
use run_law::{NoteBody, Reason};

impl Debtor<'_> {
    /// The first time at which the frame of the record of this number leaves by a link, and no record tells of it.
    pub(crate) fn unpaid_departure(&self, number: u64) -> Option<u64>
        requires range { IsInRange self.now.network.now }
        requires some { RemembersSome self.now.history.now }
        requires limit { self.now.until ≤ 2 ^ 60 }
        ensures { (befallen : List Event) (hs : List Happening) → AreKnown befallen hs self.now
            → TellsFirst (scenario_of self.now befallen) hs self.now.until (IsLeavingDebtOf number) result }
    {
        let kept = match self.records.get(number) {
            Some(kept) => kept,
            None => return None,
        };
        if !may_give(self.network, kept.kept) {
            return None;
        }
        let mut first = None;
        'links: for place in 0..self.network.link.as_slice().len() {
            first = earlier_of(
                first,
                self.unpaid_leaving(number, kept, LinkId(place as u32)),
            );
        }
        first
    }

    // When the frame of the record of this number leaves by the link, if no record tells of it.
    fn unpaid_leaving(&self, number: u64, kept: &KeptRecord, link: LinkId) -> Option<u64>
        requires range { IsInRange self.now.network.now }
        requires some { RemembersSome self.now.history.now }
        requires limit { self.now.until ≤ 2 ^ 60 }
        ensures { (befallen : List Event) (hs : List Happening) (h : Happening) → AreKnown befallen hs self.now
            → numbered hs number ≡ Some h → kept.now ≡ record_of h
            → TellsUnpaid (scenario_of self.now befallen) hs self.now.until (debts.departure number link) result }
    {
        let leaving = match departure_due(self.network, self.history, kept, link, self.until) {
            Some(leaving) => leaving,
            None => return None,
        };
        let Leaving { device, time, .. } = leaving;
        let departed = match departure(self.network, self.history, kept, device, link, time) {
            Some(departed) => departed,
            None => return None,
        };
        if self.has_departure(&leaving, link, number, departed) {
            return None;
        }
        Some(time)
    }

    // Does a record stand where what becomes so of the frame of the record of this number is told?
    fn has_departure(
        &self,
        leaving: &Leaving,
        link: LinkId,
        number: u64,
        departed: Departed,
    ) -> bool
        ensures { (hs : List Happening) → ArePlacesOf hs self.now.places.now → IsTrue result
            ↔ HasRecordAt hs (leaving_place leaving.now.time leaving.now.device link number (departure_as departed)) }
    {
        let Leaving { device, time, .. } = *leaving;
        let cause = number;
        match departed {
            Departed::Leaves(clock) => {
                let left = NoteBody::Left {
                    device,
                    link,
                    cause,
                    clock,
                };
                self.places
                    .has_behind(number, time, &Place::of(time, 0, &left))
            }
            Departed::OnCutWay => {
                let lost = NoteBody::Lost {
                    device,
                    link,
                    cause,
                };
                self.places
                    .has_behind(number, time, &Place::of(time, 0, &lost))
            }
            Departed::TooOld => {
                let reason = Reason::Old;
                let dropped = NoteBody::Dropped {
                    device,
                    link,
                    cause,
                    reason,
                };
                self.places
                    .has_behind(number, time, &Place::of(time, 0, &dropped))
            }
        }
    }
}

/// May a record of which this is kept give its frame to a link?
fn may_give(network: &Network, kept: Kept) -> bool
    ensures { result ≡ may_give network.now kept }
{
    match kept {
        Kept::Sent(_) | Kept::Compressed(_, _) => true,
        Kept::Arrived(device, _, _) => is_relay(network, device),
        Kept::On(_)
        | Kept::Send(_, _)
        | Kept::Permanent(_, _)
        | Kept::Corrected(_)
        | Kept::Left(_, _)
        | Kept::TtSent(_, _)
        | Kept::Accepted(_, _, _)
        | Kept::Delivered(_, _, _)
        | Kept::Other => false,
    }
}
