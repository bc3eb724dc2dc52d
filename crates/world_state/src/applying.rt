ghost use Rattle.std.specs.{List.list_any, Prelude.{unsigned_abs, ℕ}};
ghost use Rattle.std.specs.Prelude.{◌*◌, ◌++◌, ◌+◌, ◌<◌, ◌==◌, ◌^◌, ◌||◌, ◌≡◌, ◌≢◌, ◌≤ℤ◌, ◌≤◌, All, Bool, IfNone};
ghost use Rattle.std.specs.Prelude.{IfSome, OnErr, OnOk, Some, false, filter, length, map, not, pos, slice_get};
ghost use Rattle.net_plan.specs.declared.{ids.DeviceId.DeviceId, network.Network.Network, tables.Way.{Way as WayOf}};
ghost use Rattle.{net_plan.specs.declared.ids.LinkId.LinkId, run_law.specs.scenario.Scenarios.turns_on};
ghost use Rattle.{run_law.specs.machines.Nodes.Node, tte_units.specs.declared.rates.Ppb.Ppb};
ghost use Rattle.{run_law.specs.scenario.Hypothesis.breaks_at, sync_state.specs.declared.state.State.TheVariants.Off};
ghost use Rattle.world_law.specs.world.Outcomes.{also_befell, befallen_node, ends_world};
ghost use Rattle.world_state.specs.Applying.{HasItsLink, IsElsewhere, clock_after, device_in, way_after};
ghost use Rattle.world_state.specs.{Keeping.keeps, declared.kept.Kept.{Kept as KeptValue}};
ghost use Rattle.world_state.specs.{Views.befell_as, declared.contents.WayState.{WayState as WayValue}};

use crate::OutOfMemory;
use crate::contents::{Befallen, WayState};
use crate::frames::Frames;
use crate::kept::Kept;
use crate::packets::{Happened, Happening, Packet};
use drift_clock::Clock;
use net_plan::{DeviceId, Network, Octets, Way, What};
use run_law::{Machine, is_way};
use tte_units::Units;

/// Sets the rate of a device's clock, where that is what befalls the network.
pub fn set_rate<C: Clock>(clocks: &mut Vec<C>, time: Units, what: &What)
    requires there { (device : DeviceId) (rate : Ppb) → what.now ≡ What.Rate device rate
        → device.0 < length clocks.old.items }
    requires slow { (device : DeviceId) (rate : Ppb) → what.now ≡ What.Rate device rate
        → unsigned_abs rate.0 ≤ 1000000 }
    requires stepped { All (λ c. pos (C.last_step c) ≤ℤ time.0) clocks.old.items }
    requires limit { time.0 ≤ℤ pos (2 ^ 60) }
    ensures each { (device : DeviceId) (clock : C) → slice_get clocks.old.items device.0 ≡ Some clock
        → slice_get clocks.new.items device.0 ≡ Some (clock_after C.after_step device time what.now clock) }
    ensures length { length clocks.new.items ≡ length clocks.old.items }
    ensures stepped { All (λ c. pos (C.last_step c) ≤ℤ time.0) clocks.new.items }
{
    if let What::Rate(device, rate) = what {
        clocks[device.0 as usize].rate(time, *rate);
    }
}

/// A way of a link after what befalls the network.
fn way_after(was: WayState, link: u32, way: Way, what: &What) -> WayState
    ensures { result ≡ way_after (record { 0 = link }) way what.now was }
{
    match what {
        What::Wire(other, turned, delay) if link == other.0 && is_way(way, *turned) => WayState {
            delay: delay.0.unsigned_abs(),
            ..was
        },
        What::Hold(other, turned, hold) if link == other.0 && is_way(way, *turned) => WayState {
            hold: hold.0.unsigned_abs(),
            ..was
        },
        What::Cut(other, turned) if link == other.0 && is_way(way, *turned) => WayState {
            cut: true,
            ..was
        },
        What::Heal(other, turned) if link == other.0 && is_way(way, *turned) => WayState {
            cut: false,
            ..was
        },
        _ => was,
    }
}

/// The device breaks, where that is what befalls the network.
pub fn set_broken(broken: &mut Vec<bool>, what: &What)
    requires there { (device : DeviceId) → what.now ≡ What.Break device → device.0 < length broken.old.items }
    ensures each { (device : DeviceId) (was : Bool) → slice_get broken.old.items device.0 ≡ Some was
        → slice_get broken.new.items device.0 ≡ Some (was || breaks_at device.0 what.now) }
    ensures length { length broken.new.items ≡ length broken.old.items }
{
    if let What::Break(device) = what {
        broken[device.0 as usize] = true;
    }
}

/// Does it turn the device on?
fn does_turn_on(what: &Happened, device: DeviceId) -> bool
    ensures { result ≡ turns_on device what.now }
{
    match &what.happening {
        Happening::On(other) => device.0 == other.0,
        Happening::Send(_, _) | Happening::End => false,
    }
}

/// Is the device turned on by what befell?
pub fn is_turned_on(befell: &[Befallen], device: DeviceId) -> bool
    ensures { result ≡ list_any (λ b. turns_on device b.what) befell.now }
{
    befell
        .iter()
        .any(|befallen| does_turn_on(&befallen.what, device))
}

/// The device that the event breaks, if it breaks one.
fn broken_by(what: &What) -> Option<DeviceId>
    ensures some { IfSome result (λ d. (place : ℕ) → breaks_at place what.now ≡ (d.0 == place)) }
    ensures none { IfNone result ((place : ℕ) → breaks_at place what.now ≡ false) }
{
    match what {
        What::Break(device) => Some(*device),
        What::Rate(_, _)
        | What::On(_)
        | What::Wire(_, _, _)
        | What::Hold(_, _, _)
        | What::Cut(_, _)
        | What::Heal(_, _)
        | What::Send(_, _)
        | What::End => None,
    }
}

/// A broken device waits for nothing.
pub fn drop_waiting(waiting: &mut Frames, what: &What)
    ensures { waiting.new.items ≡ filter (λ w. not (breaks_at w.device.0 what.now)) waiting.old.items }
{
    if let Some(device) = broken_by(what) {
        waiting.drop_all(device);
    }
}

/// What the event makes of what is kept of the devices. One that breaks is `on` where it was turned on at this instant.
pub fn befall_machines<M: Machine + Drop>(machines: &mut Vec<Kept<M>>, what: &What, on: bool)
    requires turned_on { (device : DeviceId) → what.now ≡ What.On device → device.0 < length machines.old.items }
    requires broken { (device : DeviceId) → what.now ≡ What.Break device → device.0 < length machines.old.items }
    ensures each { (network : Network) (device : DeviceId) (machine : KeptValue M) (turned : Bool)
        → slice_get machines.old.items device.0 ≡ Some machine
        → (what.now ≡ What.Break device → turned ≡ on)
        → (after : KeptValue M) × (slice_get machines.new.items device.0 ≡ Some after)
        × ((node : Node) → keeps M.stands machine network device node
        → (what.now ≡ What.On device → node.standing.state ≡ Off)
        → keeps M.stands after network device (befallen_node turned what.now device node)) }
    ensures others { (device : DeviceId) → IsElsewhere what.now device
        → slice_get machines.new.items device.0 ≡ slice_get machines.old.items device.0 }
    ensures length { length machines.new.items ≡ length machines.old.items }
{
    match what {
        What::On(device) => machines[device.0 as usize].turn_on(),
        What::Break(device) => machines[device.0 as usize].break_down(on),
        _ => {}
    }
}

/// The link whose ways the event changes.
fn link_of(what: &What) -> Option<u32>
    ensures there { IfSome result (λ l. (n : ℕ) → HasItsLink n what.now → l < n) }
    ensures others { IfSome result (λ l. (link : LinkId) (way : WayOf) (was : WayValue) → link.0 ≢ l
        → way_after link way what.now was ≡ was) }
    ensures none { IfNone result ((link : LinkId) (way : WayOf) (was : WayValue)
        → way_after link way what.now was ≡ was) }
{
    match what {
        What::Wire(link, _, _) | What::Hold(link, _, _) => Some(link.0),
        What::Cut(link, _) | What::Heal(link, _) => Some(link.0),
        _ => None,
    }
}

/// A way of a link is another, where that is what befalls the network.
pub fn set_way(ways: &mut Vec<WayState>, way: Way, what: &What)
    requires { HasItsLink (length ways.old.items) what.now }
    ensures each { (link : LinkId) (was : WayValue) → slice_get ways.old.items link.0 ≡ Some was
        → slice_get ways.new.items link.0 ≡ Some (way_after link way what.now was) }
    ensures length { length ways.new.items ≡ length ways.old.items }
{
    if let Some(link) = link_of(what) {
        let was = ways[link as usize];
        ways[link as usize] = way_after(was, link, way, what);
    }
}

/// Was the device that breaks turned on by what befell?
pub fn breaks_on(befell: &[Befallen], what: &What) -> bool
    ensures { (device : DeviceId) → what.now ≡ What.Break device
        → result ≡ list_any (λ b. turns_on device b.what) befell.now }
{
    match what {
        What::Break(device) => is_turned_on(befell, *device),
        _ => false,
    }
}

/// Keeps what befell, where something may come of it.
pub fn keep_befallen(
    befell: &mut Vec<Befallen>,
    number: u64,
    what: &What,
) -> Result<(), OutOfMemory>
    ensures ok { OnOk result (map befell_as befell.new.items ≡ map befell_as befell.old.items
        ++ also_befell number what.now) }
    ensures err { OnErr result (befell.new.items ≡ befell.old.items) }
{
    let alloc = *befell.allocator();
    let happening = match what {
        What::On(device) => Happening::On(*device),
        What::Send(link, octets) => Happening::Send(*link, Packet::new(alloc, octets.as_slice())?),
        _ => return Ok(()),
    };
    let what = Happened { happening };
    if befell.push(Befallen { number, what }).is_err() {
        return Err(OutOfMemory);
    }
    Ok(())
}

/// The same happening.
pub fn copy_of(what: &What) -> What
    ensures { result ≡ what.now }
{
    match what {
        What::Rate(device, rate) => What::Rate(*device, *rate),
        What::Wire(link, way, delay) => What::Wire(*link, *way, *delay),
        What::Hold(link, way, hold) => What::Hold(*link, *way, *hold),
        What::Cut(link, way) => What::Cut(*link, *way),
        What::Heal(link, way) => What::Heal(*link, *way),
        What::On(device) => What::On(*device),
        What::Break(device) => What::Break(*device),
        What::Send(link, octets) => What::Send(*link, Octets::new(octets.as_slice())),
        What::End => What::End,
    }
}

/// Does the event end the run?
pub fn ends(what: &What) -> bool
    ensures { result ≡ ends_world what.now }
{
    matches!(what, What::End)
}

/// The device whose clock or machine the event changes.
pub fn device_in(what: &What) -> Option<DeviceId>
    ensures { result ≡ device_in what.now }
{
    match what {
        What::Rate(device, _) | What::On(device) | What::Break(device) => Some(*device),
        What::Wire(_, _, _)
        | What::Hold(_, _, _)
        | What::Cut(_, _)
        | What::Heal(_, _)
        | What::Send(_, _)
        | What::End => None,
    }
}
