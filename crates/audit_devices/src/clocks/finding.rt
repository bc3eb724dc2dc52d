ghost use Rattle.std.specs.Prelude.{◌-ℤ◌, ◌<ℤ◌, ◌^◌, ◌≡◌, ◌≤ℤ◌, ◌≤◌, ◌⊎◌, IfSome, List, neg_ℤ, pos, ℕ};
ghost use Rattle.audit_law.specs.events.{Readings.clock_reading, Remembering.{Remembers, RemembersSome}};
ghost use Rattle.device_rules.specs.Widths.{IsFar};
ghost use Rattle.net_plan.specs.{Belonging.HasDevice, declared.{event.Event.Event, network.Network.Network}};
ghost use Rattle.audit_devices.specs.clocks.Finding.{IsNextOrNone, IsSeries, value_in};

use crate::Shown;
use crate::clocks::reaching::local;
use audit_law::events::{EventHistory, reading_law};
use net_plan::DeviceId;

/// Local values in equal steps.
#[derive(Clone, Copy)]
pub struct Series {
    pub first: i128,
    pub step: u64,
}

/// When a clock crosses a value of a series, and which, from 0.
#[derive(Clone, Copy)]
pub struct Crossed {
    pub time: u64,
    pub number: u128,
}

/// The least time later than `after`, up to `until`, at which the device's clock crosses a value of the series, where
/// no record changes what is shown. `until` is at most 2^60.
pub fn next_crossing(
    events: &EventHistory,
    device: DeviceId,
    shown: &Shown,
    after: u64,
    until: u64,
    series: Series,
) -> Option<Crossed>
    requires some { RemembersSome events.now }
    requires limit { until ≤ 2 ^ 60 }
    requires series { IsSeries series }
    ensures few { IfSome result (λ crossed. crossed.number ≤ 2 ^ 112) }
    ensures is { (network : Network) (befallen : List Event) → Remembers network befallen events.now
        → HasDevice network device
        → IsNextOrNone (clock_reading network befallen device) shown.now series after until result }
{
    reading_law();
    if until <= after {
        return None;
    }
    let passed = greater(
        shown.at_change(),
        local(shown, events.reading(device, after)),
    );
    let number = number_behind(series, passed);
    let sought = reading_for(shown, value_in(series, number));
    match events.reach(device, after, sought, until) {
        Some(time) => Some(Crossed { time, number }),
        None => None,
    }
}

/// The number of the least value of the series behind this one.
fn number_behind(series: Series, passed: i128) -> u128
    requires step { 1 ≤ series.step }
    requires first { IsFar series.first }
    requires least { neg_ℤ (pos (2 ^ 82)) ≤ℤ passed }
    requires most { passed ≤ℤ pos (2 ^ 82) }
    ensures behind { passed <ℤ value_in series result }
    ensures least { (n : ℕ) → passed <ℤ value_in series n → result ≤ n }
    ensures near { value_in series result ≤ℤ pos (2 ^ 111) }
    ensures few { result ≤ 2 ^ 112 }
{
    if passed < series.first {
        0
    } else {
        distance(series, passed) / u128::from(series.step) + 1
    }
}

/// How far this lies behind the first value.
fn distance(series: Series, passed: i128) -> u128
    requires first { IsFar series.first }
    requires behind { series.first ≤ℤ passed }
    requires most { passed ≤ℤ pos (2 ^ 82) }
    ensures value { pos result ≡ passed -ℤ series.first }
    ensures most { result ≤ 2 ^ 111 }
{
    (passed - series.first) as u128
}

/// What the clock reads where the local clock shows the value.
fn reading_for(shown: &Shown, value: i128) -> i128
    requires least { neg_ℤ (pos (2 ^ 82)) ≤ℤ value }
    requires most { value ≤ℤ pos (2 ^ 111) }
    ensures { result ≡ value -ℤ shown.now.adjustment }
{
    value - shown.adjustment()
}

/// The value of this number.
fn value_in(series: Series, number: u128) -> i128
    requires first { IsFar series.first }
    requires near { value_in series number ≤ℤ pos (2 ^ 111) }
    ensures { result ≡ value_in series number }
{
    series.first + (number * u128::from(series.step)) as i128
}

/// The greater of the two.
fn greater(a: i128, b: i128) -> i128
    ensures one { (result ≡ a) ⊎ (result ≡ b) }
    ensures first { a ≤ℤ result }
    ensures second { b ≤ℤ result }
{
    if a < b { b } else { a }
}
