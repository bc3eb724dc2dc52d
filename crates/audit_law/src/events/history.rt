ghost use Rattle.std.specs.{List.All, Prelude.{unsigned_abs, ℕ}};
ghost use Rattle.std.specs.Prelude.{◌*◌, ◌++◌, ◌^◌, ◌∷◌, ◌≡◌, ◌≤ℤ◌, ◌≤◌, IfOk, List, [], if◌then◌else◌, length, pos};
ghost use Rattle.net_plan.specs.{Belonging.{HasDevice, HasLink}, Ranges.IsInRange};
ghost use Rattle.net_plan.specs.declared.{event.Event.Event as EventValue, network.Network.Network as NetworkValue};
ghost use Rattle.run_law.specs.scenario.{Scenarios.{is_broken, is_turned_on_at}, Ways.{delay_at, hold_at, is_cut}};
ghost use Rattle.tte_units.specs.{Amount.amount, declared.units.Units.Units as UnitsValue};
ghost use Rattle.audit_law.specs.events.Beginnings.{AreWaysOf, IsReadyFor, IsSought, IsUntouchedDevice};
ghost use Rattle.audit_law.specs.events.{Beginnings.IsUntouchedWay, Readings.{clock_reading, scenario_under}};
ghost use Rattle.audit_law.specs.events.{Reaches.IsFirstReach, Remembering.{has_come, is_at, way_place}};
ghost use Rattle.audit_law.specs.events.Remembering.{IsAdded, MayBeAdded, MayBefall, Remembers, RemembersSome};
ghost use Rattle.net_plan.specs.declared.event.What.TheVariants as events;

use crate::events::laws::reading_law;
use crate::events::settings::Settings;
use crate::events::{OutOfMemory, clocks};
use drift_clock::{Clock, SegmentClock};
use net_plan::{DeviceId, Event, Link, LinkId, Network, Way, What};
use std::alloc::{AllocError, Global};
use tte_units::{Ppb, Units, magnitude};

/// The greatest value that is sought. No clock reads so much at a time up to 2^60.
const MOST_SOUGHT: i128 = 1 << 61;

/// What the events have set on a way.
#[derive(Drop)]
struct WayHistory {
    delay: Settings<u64>,
    hold: Settings<u64>,
    cut: Settings<bool>,
}

/// What the events have done to a device.
#[derive(Drop)]
struct DeviceHistory {
    /// Its clock, as each step of its rate leaves it.
    clock: Settings<SegmentClock>,
    /// When it broke.
    broken: Option<u64>,
    /// When it was turned on.
    turned_on: Option<u64>,
}

/// What a list of events has set, for any time up to 2^60.
#[derive(Drop)]
pub struct EventHistory {
    /// By link, the way up and then the way down.
    ways: Vec<WayHistory>,
    /// By device.
    devices: Vec<DeviceHistory>,
}

impl EventHistory {
    /// The history of a network to which nothing has happened.
    pub fn new(alloc: Global, network: &Network) -> Result<EventHistory, OutOfMemory>
        requires { IsInRange network.now }
        ensures { IfOk result (Remembers network.now []) }
    {
        let ways = untouched_ways(alloc, network)?;
        let devices = untouched_devices(alloc, network)?;
        Ok(EventHistory { ways, devices })
    }

    /// Adds an event that may befall the network, given those before it. Where memory runs out the history is as it
    /// was.
    pub fn add(&mut self, event: &Event) -> Result<(), OutOfMemory>
        requires begun { pos 0 ≤ℤ event.now.time.0 }
        requires within { MayBeAdded self.old event.now }
        ensures { IsAdded self.old self.new event.now result }
    {
        match self.keep(event) {
            Ok(()) => Ok(()),
            Err(_) => Err(OutOfMemory),
        }
    }

    // Keeps what the event sets.
    fn keep(&mut self, event: &Event) -> Result<(), AllocError>
        requires begun { pos 0 ≤ℤ event.now.time.0 }
        requires within { MayBeAdded self.old event.now }
        ensures { IsAdded self.old self.new event.now result }
    {
        let time = event.time.amount();
        match &event.what {
            What::Rate(device, rate) => self.set_rate(*device, time, *rate),
            What::Wire(link, way, delay) => self.set_delay(*link, *way, time, magnitude(*delay)),
            What::Hold(link, way, delay) => self.set_hold(*link, *way, time, magnitude(*delay)),
            What::Cut(link, way) => self.set_cut(*link, *way, time, true),
            What::Heal(link, way) => self.set_cut(*link, *way, time, false),
            What::On(device) => {
                self.turn_on(*device, time);
                Ok(())
            }
            What::Break(device) => {
                self.break_down(*device, time);
                Ok(())
            }
            What::Send(_, _) => Ok(()),
            What::End => Ok(()),
        }
    }

    /// The wire delay of the way at the time.
    pub fn delay(&self, link: LinkId, way: Way, time: u64) -> u64
        ensures { (network : NetworkValue) (befallen : List EventValue)
            → Remembers network befallen self.now → HasLink network link
            → result ≡ delay_at (scenario_under network befallen) link way time }
    {
        match self.ways.get(way_place(link, way)) {
            Some(told) => told.delay.at(time),
            None => 0,
        }
    }

    /// How long a frame that is given to the way at the time is held.
    pub fn hold(&self, link: LinkId, way: Way, time: u64) -> u64
        ensures { (network : NetworkValue) (befallen : List EventValue)
            → Remembers network befallen self.now → HasLink network link
            → result ≡ hold_at (scenario_under network befallen) link way time }
    {
        match self.ways.get(way_place(link, way)) {
            Some(told) => told.hold.at(time),
            None => 0,
        }
    }

    /// Is the way cut at the time?
    pub fn is_cut(&self, link: LinkId, way: Way, time: u64) -> bool
        ensures { (network : NetworkValue) (befallen : List EventValue)
            → Remembers network befallen self.now → HasLink network link
            → result ≡ is_cut (scenario_under network befallen) link way time }
    {
        match self.ways.get(way_place(link, way)) {
            Some(told) => told.cut.at(time),
            None => false,
        }
    }

    /// Is the device broken at the time?
    pub fn is_broken(&self, device: DeviceId, time: u64) -> bool
        ensures { (network : NetworkValue) (befallen : List EventValue)
            → Remembers network befallen self.now → HasDevice network device
            → result ≡ is_broken (scenario_under network befallen) device time }
    {
        match self.devices.get(device.0 as usize) {
            Some(told) => has_come(told.broken, time),
            None => false,
        }
    }

    /// Is the device turned on at this very time?
    pub fn is_turned_on_at(&self, device: DeviceId, time: u64) -> bool
        ensures { (network : NetworkValue) (befallen : List EventValue)
            → Remembers network befallen self.now → HasDevice network device
            → result ≡ is_turned_on_at (scenario_under network befallen) device time }
    {
        match self.devices.get(device.0 as usize) {
            Some(told) => told.turned_on == Some(time),
            None => false,
        }
    }

    /// When the device breaks.
    pub fn broken_from(&self, device: DeviceId) -> Option<u64>
        ensures { (network : NetworkValue) (befallen : List EventValue)
            → Remembers network befallen self.now → HasDevice network device
            → (time : ℕ) → is_broken (scenario_under network befallen) device time ≡ has_come result time }
    {
        self.devices.get(device.0 as usize)?.broken
    }

    /// When the device is turned on.
    pub fn turned_on_at(&self, device: DeviceId) -> Option<u64>
        ensures { (network : NetworkValue) (befallen : List EventValue)
            → Remembers network befallen self.now → HasDevice network device
            → (time : ℕ) → is_turned_on_at (scenario_under network befallen) device time ≡ is_at result time }
    {
        self.devices.get(device.0 as usize)?.turned_on
    }

    /// What the clock of the device reads at a time up to 2^60.
    pub fn reading(&self, device: DeviceId, time: u64) -> u64
        requires some { RemembersSome self.now }
        requires limit { time ≤ 2 ^ 60 }
        ensures { (network : NetworkValue) (befallen : List EventValue)
            → Remembers network befallen self.now → HasDevice network device
            → result ≡ clock_reading network befallen device time }
    {
        match self.devices.get(device.0 as usize) {
            Some(told) => clocks::reading(&told.clock, time),
            None => 0,
        }
    }

    /// The least time from `from` on, up to `until`, at which the clock of the device reads at least the value. It is
    /// None exactly where the clock reads less at each of these times. `until` is at most 2^60.
    pub fn reach(&self, device: DeviceId, from: u64, value: i128, until: u64) -> Option<u64>
        requires some { RemembersSome self.now }
        requires limit { until ≤ 2 ^ 60 }
        ensures { (network : NetworkValue) (befallen : List EventValue)
            → Remembers network befallen self.now → HasDevice network device
            → IsFirstReach (clock_reading network befallen device) from value until result }
    {
        reading_law();
        if until < from {
            return None;
        }
        if value > MOST_SOUGHT {
            return None;
        }
        match self.devices.get(device.0 as usize) {
            Some(told) => clocks::reach(&told.clock, from, goal_of(value), until),
            None => None,
        }
    }

    fn set_rate(&mut self, device: DeviceId, time: u64, rate: Ppb) -> Result<(), AllocError>
        requires slow { unsigned_abs rate.0 ≤ 1000000 }
        requires limit { time ≤ 2 ^ 60 }
        requires ready { All (IsReadyFor time) self.old.devices.items }
        ensures { (event : EventValue) → event.what ≡ events.Rate device rate → amount event.time ≡ time
            → pos 0 ≤ℤ event.time.0 → IsAdded self.old self.new event result }
    {
        match self.devices.get_mut(device.0 as usize) {
            Some(told) => {
                let mut clock = told.clock.at(time);
                clock.rate(Units::from_amount(time), rate);
                told.clock.set(time, clock)
            }
            None => Ok(()),
        }
    }

    fn set_delay(&mut self, link: LinkId, way: Way, time: u64, delay: u64) -> Result<(), AllocError>
        ensures { (event : EventValue) (set : UnitsValue) → event.what ≡ events.Wire link way set
            → amount set ≡ delay → amount event.time ≡ time → pos 0 ≤ℤ event.time.0
            → IsAdded self.old self.new event result }
    {
        match self.ways.get_mut(way_place(link, way)) {
            Some(told) => told.delay.set(time, delay),
            None => Ok(()),
        }
    }

    fn set_hold(&mut self, link: LinkId, way: Way, time: u64, hold: u64) -> Result<(), AllocError>
        ensures { (event : EventValue) (set : UnitsValue) → event.what ≡ events.Hold link way set
            → amount set ≡ hold → amount event.time ≡ time → pos 0 ≤ℤ event.time.0
            → IsAdded self.old self.new event result }
    {
        match self.ways.get_mut(way_place(link, way)) {
            Some(told) => told.hold.set(time, hold),
            None => Ok(()),
        }
    }

    fn set_cut(&mut self, link: LinkId, way: Way, time: u64, cut: bool) -> Result<(), AllocError>
        ensures { (event : EventValue) → event.what ≡ (if cut then events.Cut link way else events.Heal link way)
            → amount event.time ≡ time → pos 0 ≤ℤ event.time.0
            → IsAdded self.old self.new event result }
    {
        match self.ways.get_mut(way_place(link, way)) {
            Some(told) => told.cut.set(time, cut),
            None => Ok(()),
        }
    }

    fn turn_on(&mut self, device: DeviceId, time: u64)
        ensures { (network : NetworkValue) (befallen : List EventValue) (event : EventValue)
            → Remembers network befallen self.old → MayBefall network befallen event
            → event.what ≡ events.On device → amount event.time ≡ time → pos 0 ≤ℤ event.time.0
            → Remembers network (befallen ++ event ∷ []) self.new }
    {
        if let Some(told) = self.devices.get_mut(device.0 as usize) {
            told.turned_on = Some(time);
        }
    }

    fn break_down(&mut self, device: DeviceId, time: u64)
        ensures { (network : NetworkValue) (befallen : List EventValue) (event : EventValue)
            → Remembers network befallen self.old → MayBefall network befallen event
            → event.what ≡ events.Break device → amount event.time ≡ time → pos 0 ≤ℤ event.time.0
            → Remembers network (befallen ++ event ∷ []) self.new }
    {
        if let Some(told) = self.devices.get_mut(device.0 as usize) {
            told.broken = Some(time);
        }
    }
}

/// Has the time come by then?
pub fn has_come(from: Option<u64>, time: u64) -> bool
    ensures { result ≡ has_come from time }
{
    match from {
        Some(from) => from <= time,
        None => false,
    }
}

// The place of a way: the two of a link stand side by side.
fn way_place(link: LinkId, way: Way) -> usize
    ensures { result ≡ way_place link way }
{
    let place = 2 * link.0 as usize;
    match way {
        Way::Up => place,
        Way::Down => place + 1,
    }
}

// The value as it is sought: no clock reads less than 0.
fn goal_of(value: i128) -> Units
    requires { value ≤ℤ pos (2 ^ 61) }
    ensures bound { result.0 ≤ℤ pos (2 ^ 61) }
    ensures same { IsSought value result.0 }
{
    if value < 0 {
        Units(0)
    } else {
        Units(value as i64)
    }
}

// The ways of the network's links, on which nothing has been set.
fn untouched_ways(alloc: Global, network: &Network) -> Result<Vec<WayHistory>, AllocError>
    ensures { IfOk result (λ ways. AreWaysOf network.now.link ways.items) }
{
    let mut ways = Vec::new(alloc);
    for link in network.link.as_slice() {
        ways.push(untouched_way(alloc, link))?;
        ways.push(untouched_way(alloc, link))?;
    }
    Ok(ways)
}

fn untouched_way(alloc: Global, link: &Link) -> WayHistory
    ensures { IsUntouchedWay (amount link.now.wire) result }
{
    WayHistory {
        delay: Settings::new(alloc, magnitude(link.wire)),
        hold: Settings::new(alloc, 0),
        cut: Settings::new(alloc, false),
    }
}

// The devices of the network, to which nothing has happened.
fn untouched_devices(alloc: Global, network: &Network) -> Result<Vec<DeviceHistory>, AllocError>
    requires { IsInRange network.now }
    ensures { IfOk result (λ devices. (length devices.items ≡ length network.now.device)
        × All (IsUntouchedDevice (amount network.now.grain)) devices.items) }
{
    let mut devices = Vec::new(alloc);
    for _device in 0..network.device.as_slice().len() {
        devices.push(DeviceHistory {
            clock: Settings::new(alloc, SegmentClock::fresh(network.grain)),
            broken: None,
            turned_on: None,
        })?;
    }
    Ok(devices)
}
