ghost use Rattle.std.specs.Prelude.{◌^◌, ◌≡◌, ◌≤◌, List};
ghost use Rattle.audit_devices.specs.{Showing.IsReading, clocks.Moments.IsMoment};
ghost use Rattle.audit_law.specs.events.{Readings.scenario_under, Remembering.{Remembers, RemembersSome}};
ghost use Rattle.net_plan.specs.{Belonging.HasDevice, declared.{event.Event.Event, network.Network.Network}};

use crate::Readings;
use audit_law::events::{EventHistory, reading_law};
use net_plan::DeviceId;

/// What befalls a device at a time.
#[derive(Clone, Copy)]
pub struct DeviceMoment {
    pub readings: Readings,
    /// Is it turned on at this very time?
    pub turned_on: bool,
    pub broken: bool,
}

impl DeviceMoment {
    /// What befalls the device at a time up to 2^60, by the events.
    pub fn of(events: &EventHistory, device: DeviceId, time: u64) -> DeviceMoment
        requires some { RemembersSome events.now }
        requires limit { time ≤ 2 ^ 60 }
        ensures { (network : Network) (befallen : List Event) → Remembers network befallen events.now
            → HasDevice network device → IsMoment (scenario_under network befallen) device time result }
    {
        reading_law();
        DeviceMoment {
            readings: readings_at(events, device, time),
            turned_on: events.is_turned_on_at(device, time),
            broken: events.is_broken(device, time),
        }
    }
}

/// What the device's clock reads at the time, and a unit of time before.
fn readings_at(events: &EventHistory, device: DeviceId, time: u64) -> Readings
    requires some { RemembersSome events.now }
    requires limit { time ≤ 2 ^ 60 }
    ensures { (network : Network) (befallen : List Event) → Remembers network befallen events.now
        → HasDevice network device → IsReading (scenario_under network befallen) device time result }
{
    Readings {
        now: events.reading(device, time),
        before: events.reading(device, time.saturating_sub(1)),
    }
}
