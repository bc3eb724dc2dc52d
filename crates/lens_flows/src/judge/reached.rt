//! When a device's clock reaches a place of a cycle.

ghost use Rattle.std.specs.Prelude.{◌≡◌, ◌+◌, ◌*◌, ◌≤◌, ◌^◌, List, pos};
ghost use Rattle.audit_devices.specs.{Lasting.ShowsWithin, clocks.Finding.IsSeries};
ghost use Rattle.lens_flows.specs.judge.{Courses.{IsCourse, IsFit, IsSomeCourse, scenario_of}, Times.TellsFirstTime};
ghost use Rattle.{lens_flows.specs.judge.Values.values_from, run_law.specs.records.Happenings.Happening};
ghost use Rattle.{net_plan.specs.{Belonging.HasDevice, Ranges.IsInRange}, tte_units.specs.Amount.amount};
ghost use Rattle.{net_plan.specs.declared.event.Event.Event, run_law.specs.law.Safety.ReachesPlace};

use crate::judge::Course;
use audit_devices::Shown;
use audit_devices::clocks::{Series, next_crossing};
use audit_law::events::reading_law;
use net_plan::{DeviceId, Network};

impl Course<'_> {
    // The first time later than `after`, up to `until`, at which the device's clock reaches the place of the cycle.
    // `until` is at most 2^60.
    pub(crate) fn first_reached(
        &self,
        device: DeviceId,
        cycle: u64,
        place: u64,
        after: u64,
        until: u64,
    ) -> Option<u64>
        requires fit { IsFit self.now }
        requires known { IsSomeCourse self.now }
        requires device { HasDevice self.now.network.now device }
        requires limit { until ≤ 2 ^ 60 }
        ensures { (befallen : List Event) (hs : List Happening) → IsCourse befallen hs self.now
            → TellsFirstTime (ReachesPlace (scenario_of self.now befallen) hs device cycle place) after until result }
    {
        let mut from = after;
        'stretches: while from < until {
            let (shown, end) = self.standings.after_time(device, from, until);
            let reached = self.first_within(device, shown, cycle, place, from, end);
            if reached.is_some() {
                return reached;
            }
            from = end;
        }
        None
    }

    // The same, where this is shown of the device.
    fn first_within(
        &self,
        device: DeviceId,
        shown: &Shown,
        cycle: u64,
        place: u64,
        after: u64,
        until: u64,
    ) -> Option<u64>
        requires fit { IsFit self.now }
        requires known { IsSomeCourse self.now }
        requires device { HasDevice self.now.network.now device }
        requires limit { until ≤ 2 ^ 60 }
        ensures { (befallen : List Event) (hs : List Happening) → IsCourse befallen hs self.now
            → ShowsWithin (scenario_of self.now befallen) hs device after until shown.now
            → TellsFirstTime (ReachesPlace (scenario_of self.now befallen) hs device cycle place) after until result }
    {
        reading_law();
        let series = values_from(self.network, cycle, place);
        match next_crossing(self.events, device, shown, after, until, series) {
            Some(crossed) => {
                if crossed.number == 0 {
                    Some(crossed.time)
                } else {
                    None
                }
            }
            None => None,
        }
    }
}

/// The local value of the place in the cycle, and each one above it.
fn values_from(network: &Network, cycle: u64, place: u64) -> Series
    requires { IsInRange network.now }
    ensures values { result ≡ values_from (pos (cycle * amount network.now.cycle + place)) }
    ensures series { IsSeries result }
{
    Series {
        first: (u128::from(cycle) * u128::from(network.cycle.amount()) + u128::from(place)) as i128,
        step: 1,
    }
}
