//! Whether a device is in step.

ghost use Rattle.std.specs.Prelude.{◌≡◌, ◌↔◌, ◌≤◌, ◌^◌, List, IsTrue};
ghost use Rattle.run_law.specs.records.Happenings.{Happening, up_to};
ghost use Rattle.lens_flows.specs.judge.{Courses.{IsCourse, IsFit, IsSomeCourse, scenario_of}, Fates.StaysInStep};
ghost use Rattle.{net_plan.specs.Belonging.HasDevice, sync_state.specs.declared.state.State.TheVariants.Synchronised};
ghost use Rattle.{net_plan.specs.declared.event.Event.Event, run_law.specs.device.States.state_after};

use crate::judge::Course;
use audit_law::events::has_come;
use net_plan::DeviceId;
use sync_state::State;

impl Course<'_> {
    // Is the device correct and synchronised from the one time to the other, which is at most 2^60?
    pub(crate) fn stays_in_step(&self, device: DeviceId, from: u64, to: u64) -> bool
        requires fit { IsFit self.now }
        requires known { IsSomeCourse self.now }
        requires device { HasDevice self.now.network.now device }
        requires in_order { from ≤ to }
        requires limit { to ≤ 2 ^ 60 }
        ensures { (befallen : List Event) (hs : List Happening) → IsCourse befallen hs self.now
            → IsTrue result ↔ StaysInStep (scenario_of self.now befallen) hs device from to }
    {
        if has_come(self.events.broken_from(device), to) {
            return false;
        }
        let mut after = from;
        'stretches: while after <= to {
            let (shown, end) = self.standings.after_time(device, after, to + 1);
            if shown.state() != State::Synchronised {
                return false;
            }
            after = end;
        }
        true
    }

    // Is the device synchronised at the time, which is at most 2^60, by all records up to it?
    pub(crate) fn is_synchronised_at(&self, device: DeviceId, time: u64) -> bool
        requires fit { IsFit self.now }
        requires device { HasDevice self.now.network.now device }
        requires limit { time ≤ 2 ^ 60 }
        ensures { (befallen : List Event) (hs : List Happening) → IsCourse befallen hs self.now
            → IsTrue result ↔ (state_after (scenario_of self.now befallen) (up_to time hs) device ≡ Synchronised) }
    {
        let shown = self.standings.before_time(device, time + 1);
        if shown.state() != State::Synchronised {
            return false;
        }
        true
    }
}
