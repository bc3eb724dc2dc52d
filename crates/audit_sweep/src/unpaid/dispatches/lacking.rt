//! Whether a device dispatches a frame of a row of which no record tells.

ghost use Rattle.std.specs.Prelude.{◌^◌, ◌↔◌, ◌≡◌, ◌≤◌, IsTrue, List, MatchBool, false, true};
ghost use Rattle.{audit_devices.specs.Showing.Shows, net_plan.specs.Belonging.HasLink};
ghost use Rattle.audit_sweep.specs.records.dispatches.{Dispatched.{IsAcceptedLast, IsAtHand}, Leavings.cycle_of};
ghost use Rattle.{audit_sweep.specs.records.dispatches.Leaving.IsRowOn, net_plan.specs.declared.event.Event.Event};
ghost use Rattle.audit_sweep.specs.unpaid.dispatches.Debtors.{AreKnown, AreSomeKnown, IsFit, scenario_of};
ghost use Rattle.audit_sweep.specs.unpaid.dispatches.Frames.{AreTold, IsTold, LacksOne};
ghost use Rattle.run_law.specs.{records.Happenings.{Happening, earlier}, timed.Dispatching.IsUp};

use crate::records::dispatches::{At, LeavingRow, is_at_hand, is_cut};
use crate::unpaid::dispatches::RowDebtor;
use crate::unpaid::dispatches::debtor::RowFrame;
use audit_devices::clocks::{Crossed, DeviceMoment, is_up};
use audit_devices::{Shown, Taking};
use net_plan::LinkId;
use run_law::plain::Place;

impl RowDebtor<'_> {
    // Is the row's device synchronised and correct where its clock comes to this one of the values at which the row's
    // frames leave, and has it a frame at hand then of which no record tells?
    pub(crate) fn is_undispatched(
        &self,
        link: LinkId,
        row: &LeavingRow,
        shown: &Shown,
        crossed: Crossed,
    ) -> bool
        requires fit { IsFit self.now }
        requires known { AreSomeKnown self.now }
        requires row { IsRowOn self.now.network.now link row.now }
        requires limit { crossed.time ≤ 2 ^ 60 }
        requires few { crossed.number ≤ 2 ^ 52 }
        ensures untold { (befallen : List Event) (hs : List Happening) → AreKnown befallen hs self.now
            → Shows (scenario_of self.now befallen) (earlier crossed.time hs) row.now.device shown.now
            → result ≡ true
            → IsUp (scenario_of self.now befallen) hs row.now.device crossed.time
            × LacksOne (scenario_of self.now befallen) hs link row.now crossed.time (cycle_of row.now crossed.number) }
        ensures told { (befallen : List Event) (hs : List Happening) → AreKnown befallen hs self.now
            → Shows (scenario_of self.now befallen) (earlier crossed.time hs) row.now.device shown.now
            → result ≡ false
            → IsUp (scenario_of self.now befallen) hs row.now.device crossed.time
            → AreTold (scenario_of self.now befallen) hs link row.now crossed.time (cycle_of row.now crossed.number) }
    {
        let moment = DeviceMoment::of(self.events, row.device, crossed.time);
        if is_up(shown, moment) {
            self.lacks_one(link, row, crossed.time, row.cycle_of(crossed.number as u64))
        } else {
            false
        }
    }

    // Has the row's device a frame of the cycle at hand at the time of whose dispatch then no record tells?
    fn lacks_one(&self, link: LinkId, row: &LeavingRow, time: u64, cycle: u64) -> bool
        requires fit { IsFit self.now }
        requires row { IsRowOn self.now.network.now link row.now }
        ensures { (befallen : List Event) (hs : List Happening) → AreKnown befallen hs self.now
            → MatchBool result
            (LacksOne (scenario_of self.now befallen) hs link row.now time cycle)
            (AreTold (scenario_of self.now befallen) hs link row.now time cycle) }
    {
        let accepted = self.takings.last_accepted(row.device, row.vl, time);
        let own = RowFrame { cause: 0, cycle };
        if self.lacks(link, row, time, accepted, own) {
            return true;
        }
        match accepted {
            Some(taking) => {
                let taken = RowFrame {
                    cause: taking.number,
                    cycle,
                };
                self.lacks(link, row, time, accepted, taken)
            }
            None => false,
        }
    }

    // Has it this frame at hand, and tells no record of its dispatch?
    fn lacks(
        &self,
        link: LinkId,
        row: &LeavingRow,
        time: u64,
        accepted: Option<Taking>,
        frame: RowFrame,
    ) -> bool
        requires link { HasLink self.now.network.now link }
        ensures { (befallen : List Event) (hs : List Happening) → AreKnown befallen hs self.now
            → IsAcceptedLast self.now.network.now hs row.now.device row.now.vl time accepted
            → MatchBool result
            (IsAtHand self.now.network.now hs row.now.device row.now.sender row.now.vl time frame.cause frame.cycle
            × (IsTold (scenario_of self.now befallen) hs link row.now time frame → ⊥))
            (IsAtHand self.now.network.now hs row.now.device row.now.sender row.now.vl time frame.cause frame.cycle
            → IsTold (scenario_of self.now befallen) hs link row.now time frame) }
    {
        let RowFrame { cause, cycle } = frame;
        if is_at_hand(self.network, row.device, row.sender, accepted, cause, cycle) {
            !self.is_told(link, row, time, frame)
        } else {
            false
        }
    }

    // Does a record tell that the row's device dispatches the frame at the time, or loses it on a cut way?
    fn is_told(&self, link: LinkId, row: &LeavingRow, time: u64, frame: RowFrame) -> bool
        requires link { HasLink self.now.network.now link }
        ensures { (befallen : List Event) (hs : List Happening) → AreKnown befallen hs self.now
            → IsTrue result ↔ IsTold (scenario_of self.now befallen) hs link row.now time frame }
    {
        let device = row.device;
        let RowFrame { cause, cycle } = frame;
        let at = At { device, time };
        if is_cut(self.network, self.events, at, link) {
            return self
                .places
                .has(time, &Place::of_loss(time, device, link, cause));
        }
        self.places.has(
            time,
            &Place::of_dispatch(time, device, link, cause, row.vl, cycle),
        )
    }
}
