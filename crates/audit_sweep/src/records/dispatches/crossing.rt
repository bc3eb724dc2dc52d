//! When a clock crosses one value.

ghost use Rattle.std.specs.Prelude.{◌^◌, ◌≡◌, ◌≤◌, List, pos};
ghost use Rattle.{audit_devices.specs.clocks.Finding.IsSeries, net_plan.specs.Belonging.HasDevice};
ghost use Rattle.audit_law.specs.events.{Readings.clock_reading, Remembering.{Remembers, RemembersSome}};
ghost use Rattle.audit_sweep.specs.records.dispatches.Crossing.{IsCrossingOrNone, first_time};
ghost use Rattle.net_plan.specs.declared.{event.Event.Event, network.Network.{Network as NetworkValue}};

use audit_devices::Shown;
use audit_devices::clocks::{Crossed, Series, next_crossing};
use audit_law::events::{EventHistory, reading_law};
use net_plan::DeviceId;

/// The time later than `after`, up to `until`, at which the device's clock crosses the value, where no record changes
/// what is shown. `until` is at most 2^60.
pub fn crossing_time(
    events: &EventHistory,
    device: DeviceId,
    shown: &Shown,
    after: u64,
    until: u64,
    value: u128,
) -> Option<u64>
    requires some { RemembersSome events.now }
    requires limit { until ≤ 2 ^ 60 }
    requires value { value ≤ 2 ^ 100 }
    ensures { (network : NetworkValue) (befallen : List Event) → Remembers network befallen events.now
        → HasDevice network device
        → IsCrossingOrNone (clock_reading network befallen device) shown.now (pos value) after until result }
{
    reading_law();
    first_time(next_crossing(events, device, shown, after, until, alone(value)))
}

/// A series whose values behind the first no clock comes to together with it.
fn alone(value: u128) -> Series
    requires { value ≤ 2 ^ 100 }
    ensures series { IsSeries result }
    ensures first { result.first ≡ pos value }
    ensures far { 2 ^ 62 ≤ result.step }
{
    Series {
        first: value as i128,
        step: u64::MAX,
    }
}

/// When it is crossed, if it is the first value that is.
fn first_time(crossed: Option<Crossed>) -> Option<u64>
    ensures { result ≡ first_time crossed }
{
    match crossed {
        Some(crossed) if crossed.number == 0 => Some(crossed.time),
        Some(_) | None => None,
    }
}
