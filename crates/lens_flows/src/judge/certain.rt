//! Whether what is owed is owed by events alone.

ghost use Rattle.std.specs.Prelude.{◌≡◌, ◌↔◌, ◌≤◌, ◌^◌, List, IsTrue, false};
ghost use Rattle.lens_flows.specs.judge.{Certain.WereOn, Courses.{IsCourse, IsFit, IsSomeCourse, scenario_of}};
ghost use Rattle.lens_flows.specs.judge.Flows.{IsFlow};
ghost use Rattle.net_plan.specs.{Belonging.HasDevice, declared.event.Event.Event};
ghost use Rattle.run_law.specs.{device.States.{is_off, state_after}, records.Happenings.{Happening, up_to}};

use crate::judge::{Course, Flow};
use net_plan::DeviceId;
use sync_state::State;

impl Course<'_> {
    // Were the sender and the receiver of the flow on three cycles before this time, which is at most 2^60?
    pub(crate) fn were_on(&self, flow: &Flow, from: u64) -> bool
        requires fit { IsFit self.now }
        requires flow { IsFlow self.now.network.now flow.now }
        requires limit { from ≤ 2 ^ 60 }
        ensures { (befallen : List Event) (hs : List Happening) → IsCourse befallen hs self.now
            → IsTrue result ↔ WereOn (scenario_of self.now befallen) hs flow.now from }
    {
        let long = 3 * self.network.cycle.amount();
        if from < long {
            return false;
        }
        if !self.is_on_at(flow.of_vl.sender, from - long) {
            return false;
        }
        self.is_on_at(flow.device, from - long)
    }

    // Is the device on at the time, which is at most 2^60, by all records up to it?
    fn is_on_at(&self, device: DeviceId, time: u64) -> bool
        requires fit { IsFit self.now }
        requires device { HasDevice self.now.network.now device }
        requires limit { time ≤ 2 ^ 60 }
        ensures { (befallen : List Event) (hs : List Happening) → IsCourse befallen hs self.now
            → IsTrue result ↔ (is_off (state_after (scenario_of self.now befallen) (up_to time hs) device) ≡ false) }
    {
        let shown = self.standings.before_time(device, time + 1);
        if shown.state() == State::Off {
            return false;
        }
        true
    }
}
