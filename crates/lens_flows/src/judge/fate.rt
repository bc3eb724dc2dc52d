//! What becomes of a flow in a cycle.

ghost use Rattle.std.specs.Prelude.{◌≡◌, ◌↔◌, ◌≤◌, ◌^◌, List, IsTrue};
ghost use Rattle.lens_flows.specs.judge.{Courses.{IsCourse, IsFit, IsSomeCourse, scenario_of}, Flows.IsFlow};
ghost use Rattle.lens_flows.specs.judge.Fates.{HasFate, IsBegun, IsOwedFrom};
ghost use Rattle.{net_plan.specs.declared.event.Event.Event, run_law.specs.records.Happenings.Happening};

use crate::judge::{Course, Flow};

/// What becomes of a flow in a cycle: its delivery is owed, or whose fault it is that it is not.
#[derive(Clone, Copy, PartialEq, Eq)]
pub enum Fate {
    /// Delivery is owed.
    Owed,
    /// The receiver is not correct and synchronised from the beginning of the cycle to the end of its last window.
    Receiver,
    /// The sender is not, where its clock comes to its offsets, or is broken.
    Sender,
    /// The run ends before the end of the last window.
    End,
}

impl Course<'_> {
    /// What becomes of the flow in the cycle that its receiver's clock begins at this time.
    pub fn fate(&self, flow: &Flow, cycle: u64, from: u64) -> Fate
        requires fit { IsFit self.now }
        requires known { IsSomeCourse self.now }
        requires flow { IsFlow self.now.network.now flow.now }
        requires in_run { from ≤ self.now.until }
        ensures { (befallen : List Event) (hs : List Happening) → IsCourse befallen hs self.now
            → IsBegun (scenario_of self.now befallen) hs self.now.until flow.now cycle from
            → HasFate (scenario_of self.now befallen) hs self.now.until flow.now cycle from result }
    {
        match self.first_reached(flow.device, cycle, flow.last, from, self.until) {
            Some(to) => {
                if !self.stays_in_step(flow.device, from, to) {
                    Fate::Receiver
                } else if self.is_sent(flow, cycle, to) {
                    Fate::Owed
                } else if self.is_owed(flow, cycle, from) {
                    Fate::Owed
                } else {
                    Fate::Sender
                }
            }
            None => {
                if self.stays_in_step(flow.device, from, self.until) {
                    Fate::End
                } else {
                    Fate::Receiver
                }
            }
        }
    }

    // Is delivery owed in the cycle that its receiver's clock begins at this time?
    fn is_owed(&self, flow: &Flow, cycle: u64, from: u64) -> bool
        requires fit { IsFit self.now }
        requires known { IsSomeCourse self.now }
        requires flow { IsFlow self.now.network.now flow.now }
        ensures { (befallen : List Event) (hs : List Happening) → IsCourse befallen hs self.now
            → IsBegun (scenario_of self.now befallen) hs self.now.until flow.now cycle from
            → IsTrue result ↔ IsOwedFrom (scenario_of self.now befallen) hs self.now.until flow.now cycle from }
    {
        let mut after = from;
        'ends: while let Some(to) = self.first_reached(
            flow.device,
            cycle,
            flow.last,
            after,
            self.until,
        ) {
            if !self.stays_in_step(flow.device, from, to) {
                return false;
            }
            if self.is_sent(flow, cycle, to) {
                return true;
            }
            after = to;
        }
        false
    }
}
