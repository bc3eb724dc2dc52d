//! Whether a sender was synchronised where its clock came to its offsets.

ghost use Rattle.std.specs.Prelude.{◌≡◌, ◌↔◌, ◌<◌, ◌≤◌, ◌^◌, ℕ, List, IsTrue, MatchBool, length};
ghost use Rattle.lens_flows.specs.judge.{Courses.{IsCourse, IsFit, IsSomeCourse, scenario_of}, Flows.IsFlow};
ghost use Rattle.lens_flows.specs.judge.{Fates.{HasComeInStep, IsRowSent, IsSent, ReachesInStep}, Times.NoneWithin};
ghost use Rattle.net_plan.specs.{Belonging.HasDevice, declared.event.Event.Event};
ghost use Rattle.run_law.specs.records.Happenings.{Happening};

use crate::judge::{Course, Flow};
use net_plan::{DeviceId, RowId};
use schedule_tables::{entries_law, entry_of};

impl Course<'_> {
    // Did the sender's clock come to each of its offsets in the cycle before this time, where it was synchronised, and
    // is it correct then? The time is at most 2^60.
    pub(crate) fn is_sent(&self, flow: &Flow, cycle: u64, before: u64) -> bool
        requires fit { IsFit self.now }
        requires known { IsSomeCourse self.now }
        requires flow { IsFlow self.now.network.now flow.now }
        requires some { 1 ≤ before }
        requires limit { before ≤ 2 ^ 60 }
        ensures { (befallen : List Event) (hs : List Happening) → IsCourse befallen hs self.now
            → IsTrue result ↔ IsSent (scenario_of self.now befallen) hs flow.now cycle before }
    {
        if self.events.is_broken(flow.of_vl.sender, before) {
            return false;
        }
        'rows: for place in flow.rows.from..flow.rows.to {
            if !self.is_row_sent(flow, RowId(place), cycle, before) {
                return false;
            }
        }
        true
    }

    // Did the sender's clock come to the offset of the row in the cycle before this time, where it was synchronised, if
    // the row is one of the virtual link that leaves the sender?
    fn is_row_sent(&self, flow: &Flow, row: RowId, cycle: u64, before: u64) -> bool
        requires fit { IsFit self.now }
        requires known { IsSomeCourse self.now }
        requires flow { IsFlow self.now.network.now flow.now }
        requires row { row.0 < length self.now.network.now.row }
        requires some { 1 ≤ before }
        requires limit { before ≤ 2 ^ 60 }
        ensures { (befallen : List Event) (hs : List Happening) → IsCourse befallen hs self.now
            → IsTrue result ↔ IsRowSent (scenario_of self.now befallen) hs flow.now cycle before row.0 }
    {
        entries_law();
        let entry = entry_of(self.network, row);
        if entry.row.vl.0 != flow.vl.0 {
            return true;
        }
        if entry.source().0 != flow.of_vl.sender.0 {
            return true;
        }
        self.has_come_in_step(flow.of_vl.sender, cycle, entry.row.offset.amount(), before)
    }

    // Did the device's clock come to the place in the cycle before this time, where it was synchronised?
    fn has_come_in_step(&self, device: DeviceId, cycle: u64, place: u64, before: u64) -> bool
        requires fit { IsFit self.now }
        requires known { IsSomeCourse self.now }
        requires device { HasDevice self.now.network.now device }
        requires some { 1 ≤ before }
        requires limit { before ≤ 2 ^ 60 }
        ensures { (befallen : List Event) (hs : List Happening) → IsCourse befallen hs self.now
            → IsTrue result ↔ HasComeInStep (scenario_of self.now befallen) hs device cycle place before }
    {
        let near = before.saturating_sub(self.network.cycle.amount());
        if self.comes_in_step(device, cycle, place, near, before) {
            return true;
        }
        self.comes_in_step(device, cycle, place, 0, before)
    }

    // Does the device's clock come to the place in the cycle later than `after` and before this time, where it is
    // synchronised?
    fn comes_in_step(
        &self,
        device: DeviceId,
        cycle: u64,
        place: u64,
        after: u64,
        before: u64,
    ) -> bool
        requires fit { IsFit self.now }
        requires known { IsSomeCourse self.now }
        requires device { HasDevice self.now.network.now device }
        requires some { 1 ≤ before }
        requires limit { before ≤ 2 ^ 60 }
        ensures { (befallen : List Event) (hs : List Happening) → IsCourse befallen hs self.now
            → MatchBool result
            ((time : ℕ) × (time < before) × ReachesInStep (scenario_of self.now befallen) hs device cycle place time)
            (NoneWithin (ReachesInStep (scenario_of self.now befallen) hs device cycle place) after before) }
    {
        let mut from = after;
        'times: while let Some(time) = self.first_reached(device, cycle, place, from, before - 1) {
            if self.is_synchronised_at(device, time) {
                return true;
            }
            from = time;
        }
        false
    }
}
