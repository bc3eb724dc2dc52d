//! How many cycles of a flow have each fate, and in how many delivery is owed by events alone.

ghost use Rattle.std.specs.Prelude.{◌≡◌, ◌^◌, ◌↔◌, ◌<◌, ◌≤◌, IsTrue, List};
ghost use Rattle.lens_flows.specs.counts.Counted.{AreBelow, AreFateCounts, IsCertainCounted, IsCycleCounted, counted};
ghost use Rattle.lens_flows.specs.{counts.Ordered.IsCountOf, judge.Certain.IsCertainAt};
ghost use Rattle.lens_flows.specs.judge.{Courses.{IsCourse, IsFit, IsSomeCourse, scenario_of}, Flows.IsFlow};
ghost use Rattle.{net_plan.specs.declared.event.Event.Event, run_law.specs.records.Happenings.Happening};
ghost use Rattle.schedule_tables.specs.Windows.{OccursIn};

use crate::judge::{Begun, Course, Fate, Flow};
use audit_law::events::reading_law;
use net_plan::VirtualLink;

/// How many cycles of a flow have each fate.
#[derive(Clone, Copy, PartialEq, Eq)]
pub struct FateCounts {
    /// Delivery is owed.
    pub owed: u64,
    /// It is not owed: by the receiver, by the sender, or since the run ends first.
    pub receiver: u64,
    pub sender: u64,
    pub end: u64,
}

/// How many cycles of a flow have each fate, and in how many its delivery is owed by events alone.
#[derive(Clone, Copy, PartialEq, Eq)]
pub(crate) struct CycleCounts {
    pub(crate) fates: FateCounts,
    pub(crate) certain: u64,
}

/// Counts the cycles of the flow: the times at which its receiver's clock begins a cycle in which the virtual link
/// occurs.
pub(crate) fn count_cycles(course: &Course<'_>, flow: &Flow) -> CycleCounts
    requires fit { IsFit course.now }
    requires known { IsSomeCourse course.now }
    requires flow { IsFlow course.now.network.now flow.now }
    ensures fates { (befallen : List Event) (hs : List Happening) → IsCourse befallen hs course.now
        → AreFateCounts (scenario_of course.now befallen) hs course.now.until flow.now result.fates }
    ensures certain { (befallen : List Event) (hs : List Happening) → IsCourse befallen hs course.now
        → IsCountOf (IsCertainAt (scenario_of course.now befallen) hs course.now.until flow.now) result.certain }
{
    reading_law();
    let mut counts = CycleCounts {
        fates: FateCounts {
            owed: 0,
            receiver: 0,
            sender: 0,
            end: 0,
        },
        certain: 0,
    };
    let mut after = 0;
    'begun: while let Some(begun) = course.next_begun(flow.device, after) {
        counts = count_cycle(counts, course, flow, begun);
        after = begun.time;
    }
    counts
}

/// The same with the cycle that the receiver's clock begins, if the virtual link occurs in it.
fn count_cycle(counts: CycleCounts, course: &Course<'_>, flow: &Flow, begun: Begun) -> CycleCounts
    requires fit { IsFit course.now }
    requires known { IsSomeCourse course.now }
    requires flow { IsFlow course.now.network.now flow.now }
    requires few { AreBelow (2 ^ 63) counts.fates × (counts.certain < 2 ^ 63) }
    requires in_run { begun.time ≤ course.now.until }
    ensures fates { IsCycleCounted course.now flow.now begun counts.fates result.fates }
    ensures certain { IsCertainCounted course.now flow.now begun counts.certain result.certain }
{
    if !occurs_in(&flow.of_vl, begun.cycle) {
        return counts;
    }
    let fate = course.fate(flow, begun.cycle, begun.time);
    let mut certain = counts.certain;
    if fate == Fate::Owed && course.were_on(flow, begun.time) {
        certain += 1;
    }
    CycleCounts {
        fates: counts.fates.with(fate),
        certain,
    }
}

impl FateCounts {
    /// The same with one cycle more that has this fate.
    fn with(self, fate: Fate) -> FateCounts
        requires { AreBelow (2 ^ 63) self }
        ensures { result ≡ counted self fate }
    {
        match fate {
            Fate::Owed => FateCounts {
                owed: self.owed + 1,
                ..self
            },
            Fate::Receiver => FateCounts {
                receiver: self.receiver + 1,
                ..self
            },
            Fate::Sender => FateCounts {
                sender: self.sender + 1,
                ..self
            },
            Fate::End => FateCounts {
                end: self.end + 1,
                ..self
            },
        }
    }
}

/// Does the virtual link occur in the cycle?
fn occurs_in(vl: &VirtualLink, cycle: u64) -> bool
    requires { 1 ≤ vl.now.period }
    ensures { IsTrue result ↔ OccursIn vl.now cycle }
{
    1 <= cycle && cycle % u64::from(vl.period) == u64::from(vl.phase)
}
