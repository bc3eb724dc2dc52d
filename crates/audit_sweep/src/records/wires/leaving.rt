//! When control frames leave devices, and what becomes of them.

ghost use Rattle.std.specs.Prelude.{◌+◌, ◌-◌, ◌^◌, ◌↔◌, ◌≡◌, ◌≤◌, IfSome, IsTrue, List, Some, ℕ};
ghost use Rattle.audit_law.specs.events.{Readings.scenario_under, Remembering.{Remembers, RemembersSome}};
ghost use Rattle.{audit_sweep.specs.records.Keeping.record_of, net_plan.specs.Ranges.IsInRange};
ghost use Rattle.audit_sweep.specs.records.wires.Departings.{IsDeparted, IsLeavingBy, giver, is_child_of, passes};
ghost use Rattle.net_plan.specs.{Belonging.{HasDevice, HasLink}, declared.ids.DeviceId.{DeviceId as DeviceIdValue}};
ghost use Rattle.net_plan.specs.declared.{event.Event.{Event as EventValue}, network.Network.{Network as NetworkValue}};
ghost use Rattle.run_law.specs.{records.Happenings.{Happening, numbered}, scenario.Ways.{hold_at, way_from}};

use crate::records::{Kept, KeptRecord};
use audit_law::events::EventHistory;
use device_rules::{Departed, is_parent_of, is_relay, way_from};
use net_plan::{DeviceId, LinkId, Network};

/// A frame that leaves.
#[derive(Clone, Copy)]
pub struct Leaving {
    pub device: DeviceId,
    pub link: LinkId,
    /// The world time, in units of 2^-16 ns.
    pub time: u64,
}

/// When the frame of the record of the number `cause` leaves by the link, by the time, and the device that gave it to
/// the link. It is None exactly where none does.
pub fn departure_due(
    network: &Network,
    history: &EventHistory,
    kept: &KeptRecord,
    link: LinkId,
    until: u64,
) -> Option<Leaving>
    requires { IsInRange network.now }
    ensures leaves { (befallen : List EventValue) (hs : List Happening) (h : Happening) (cause : ℕ)
        → Remembers network.now befallen history.now → numbered hs cause ≡ Some h → kept.now ≡ record_of h
        → ((device : DeviceIdValue) → giver network.now link kept.now.kept ≡ Some device → HasDevice network.now device)
        → IsLeavingBy (scenario_under network.now befallen) hs until cause link result }
    ensures within { IfSome result (λ leaving. leaving.time ≤ until) }
{
    // What arrives and is no control frame is not passed on.
    if kept.frame.is_none() {
        return None;
    }
    let device = match giver(network, link, kept.kept) {
        Some(device) => device,
        None => return None,
    };
    let time = leaving_time(network, history, device, link, kept.time);
    if u128::from(until) < time {
        return None;
    }
    let time = time as u64;
    if history.is_broken(device, time) {
        return None;
    }
    Some(Leaving { device, link, time })
}

/// What becomes at its leaving by the device at the time, up to 2^60, of the frame of the record of the number `cause`
/// that was given to the link. It is None exactly where it does not leave then.
#[inline(always)]
pub fn departure(
    network: &Network,
    history: &EventHistory,
    kept: &KeptRecord,
    device: DeviceId,
    link: LinkId,
    time: u64,
) -> Option<Departed>
    requires range { IsInRange network.now }
    requires some { RemembersSome history.now }
    requires limit { time ≤ 2 ^ 60 }
    ensures { (befallen : List EventValue) (hs : List Happening) (h : Happening) (cause : ℕ)
        → Remembers network.now befallen history.now → numbered hs cause ≡ Some h → kept.now ≡ record_of h
        → HasDevice network.now device
        → IsDeparted (scenario_under network.now befallen) hs device time link cause result }
{
    let frame = match &kept.frame {
        Some(frame) => frame,
        None => return None,
    };
    if !is_giver(network, link, kept.kept, device) {
        return None;
    }
    if u128::from(time) != leaving_time(network, history, device, link, kept.time) {
        return None;
    }
    if history.is_broken(device, time) {
        return None;
    }
    let grown = grown(history, device, kept.time, time);
    let cut = history.is_cut(link, way_from(network, device, link), time);
    Some(device_rules::departure(network, frame.clock, grown, cut))
}

/// When the device's frame that was given to the link at this time leaves.
fn leaving_time(
    network: &Network,
    history: &EventHistory,
    device: DeviceId,
    link: LinkId,
    given: u64,
) -> u128
    ensures low { given ≤ result }
    ensures value { (befallen : List EventValue) → Remembers network.now befallen history.now
        → HasLink network.now link → result ≡ given
        + hold_at (scenario_under network.now befallen) link (way_from network.now device link) given }
{
    let hold = history.hold(link, way_from(network, device, link), given);
    u128::from(given) + u128::from(hold)
}

/// How far the reading of the device has grown between two times up to 2^60.
fn grown(history: &EventHistory, device: DeviceId, from: u64, to: u64) -> u64
    requires some { RemembersSome history.now }
    requires order { from ≤ to }
    requires limit { to ≤ 2 ^ 60 }
    ensures { (network : NetworkValue) (befallen : List EventValue) → Remembers network befallen history.now
        → HasDevice network device → result ≡ ((scenario_under network befallen).reading device to
        - (scenario_under network befallen).reading device from) }
{
    let first = history.reading(device, from);
    let last = history.reading(device, to);
    last.saturating_sub(first)
}

/// Does this device give the frame of the record to the link?
fn is_giver(network: &Network, link: LinkId, kept: Kept, device: DeviceId) -> bool
    ensures { IsTrue result ↔ (giver network.now link kept ≡ Some device) }
{
    match giver(network, link, kept) {
        Some(giver) => giver.0 == device.0,
        None => false,
    }
}

/// The device that gives the frame of the record to the link, if one does.
#[inline(always)]
fn giver(network: &Network, link: LinkId, kept: Kept) -> Option<DeviceId>
    ensures { result ≡ giver network.now link kept }
{
    let (device, gives) = match kept {
        Kept::Sent(device) => (device, is_child_of(network, device, link)),
        Kept::Compressed(device, _) => (device, is_parent_of(network, device, link)),
        Kept::Arrived(device, by, _) => (device, passes(network, device, by, link)),
        Kept::On(_)
        | Kept::Send(_, _)
        | Kept::Permanent(_, _)
        | Kept::Corrected(_)
        | Kept::Left(_, _)
        | Kept::TtSent(_, _)
        | Kept::Accepted(_, _, _)
        | Kept::Delivered(_, _, _)
        | Kept::Other => return None,
    };
    if gives { Some(device) } else { None }
}

/// Does the relay pass a frame that came by the one link on by the other?
#[inline(always)]
fn passes(network: &Network, device: DeviceId, by: LinkId, link: LinkId) -> bool
    ensures { result ≡ passes network.now device by link }
{
    is_relay(network, device)
        && ((is_parent_of(network, device, by) && is_child_of(network, device, link))
            || (is_child_of(network, device, by) && is_parent_of(network, device, link)))
}

/// Is the device the child of the link?
#[inline(always)]
fn is_child_of(network: &Network, device: DeviceId, link: LinkId) -> bool
    ensures { result ≡ is_child_of network.now device link }
{
    match network.link.as_slice().get(link.0 as usize) {
        Some(found) => found.child.0 == device.0,
        None => false,
    }
}
