//! The cycles that a device's clock begins.

ghost use Rattle.std.specs.Prelude.{◌≡◌, ◌≤◌, ◌^◌, List};
ghost use Rattle.{audit_devices.specs.Lasting.ShowsWithin, audit_law.specs.events.Remembering.RemembersSome};
ghost use Rattle.lens_flows.specs.judge.{Beginnings.IsNextBegun, Courses.{IsCourse, IsFit, IsSomeCourse, scenario_of}};
ghost use Rattle.net_plan.specs.Belonging.{HasDevice};
ghost use Rattle.{net_plan.specs.declared.event.Event.Event, run_law.specs.records.Happenings.Happening};

use crate::judge::Course;
use audit_devices::Shown;
use audit_devices::clocks::{beginnings, next_crossing};
use audit_law::events::reading_law;
use net_plan::DeviceId;

/// A cycle that a device's clock begins, and when.
#[derive(Clone, Copy, PartialEq, Eq)]
pub struct Begun {
    /// The world time, in units of 2^-16 ns.
    pub time: u64,
    pub cycle: u64,
}

impl Course<'_> {
    /// The next cycle, but the silent one, that the device's clock begins later than `after` in the run.
    pub fn next_begun(&self, device: DeviceId, after: u64) -> Option<Begun>
        requires fit { IsFit self.now }
        requires known { IsSomeCourse self.now }
        requires device { HasDevice self.now.network.now device }
        ensures { (befallen : List Event) (hs : List Happening) → IsCourse befallen hs self.now
            → IsNextBegun (scenario_of self.now befallen) hs device after self.now.until result }
    {
        let mut from = after;
        'stretches: while from < self.until {
            let (shown, end) = self.standings.after_time(device, from, self.until);
            let begun = self.begun_within(device, shown, from, end);
            if begun.is_some() {
                return begun;
            }
            from = end;
        }
        None
    }

    // The same, where this is shown of the device.
    fn begun_within(&self, device: DeviceId, shown: &Shown, after: u64, until: u64) -> Option<Begun>
        requires fit { IsFit self.now }
        requires known { IsSomeCourse self.now }
        requires device { HasDevice self.now.network.now device }
        requires limit { until ≤ 2 ^ 60 }
        ensures { (befallen : List Event) (hs : List Happening) → IsCourse befallen hs self.now
            → ShowsWithin (scenario_of self.now befallen) hs device after until shown.now
            → IsNextBegun (scenario_of self.now befallen) hs device after until result }
    {
        reading_law();
        let series = beginnings(self.network);
        match next_crossing(self.events, device, shown, after, until, series) {
            Some(crossed) => Some(Begun {
                time: crossed.time,
                cycle: (crossed.number + 1) as u64,
            }),
            None => None,
        }
    }
}
