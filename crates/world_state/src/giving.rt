ghost use Rattle.std.specs.Prelude.{◌+◌, ◌<◌, ◌^◌, ◌↔◌, ◌∷◌, ◌≡◌, ◌≤◌, ◌⊎◌, All, IfNone, IfSome, IsPermutation};
ghost use Rattle.std.specs.Prelude.{IsTrue, OnOk, Some, false, length, true};
ghost use Rattle.{net_plan.specs.{Ranges.IsInRange, Rules.IsChildOf}, tte_units.specs.Amount.amount};
ghost use Rattle.{net_plan.specs.declared.ids.LinkId.{LinkId as LinkOf}, world_state.specs.Shelves.HasPlace};
ghost use Rattle.run_law.specs.{control.Leaving.{Gives, Passes}, scenario.Devices.IsParentOf};
ghost use Rattle.world_state.specs.{Frames.{IsOneMore, room_of, waiter_of}, Sound.{AreBelow, AreUnderWay}};
ghost use Rattle.world_state.specs.Giving.{ArePutTo, CameBy, IsGivenBy, IsYoung, awaited_by, entry_at_port, place_at_port};

use crate::OutOfMemory;
use crate::contents::{Content, HoldSpot, WayState};
use crate::frames::Frames;
use crate::queue::{DueAt, UnderWay};
use crate::shelves::Shelves;
use crate::waiting::{awaited, wait_for};
use device_rules::is_relay;
use net_plan::{DeviceId, Link, LinkId, Network};
use run_law::plain::{PlainBody, PlainKind, Rank};
use tte_units::frames::Pcf;

/// Does the link lead from the device up to its parent?
fn is_child(network: &Network, device: DeviceId, link: LinkId) -> bool
    requires { link.0 < length network.now.link }
    ensures { IsTrue result ↔ IsChildOf network.now device link }
{
    network.link.as_slice()[link.0 as usize].child == device
}

/// Is the device the parent of the link?
fn is_above(network: &Network, device: DeviceId, link: LinkId) -> bool
    requires { link.0 < length network.now.link }
    ensures { IsTrue result ↔ IsParentOf network.now device link }
{
    network.link.as_slice()[link.0 as usize].parent == device
}

/// To which of its links a device gives a frame: to those that lead up to its parents, and to those that lead down from
/// it?
#[derive(Clone, Copy)]
pub struct Directions {
    /// To those of which it is the child.
    pub up: bool,
    /// To those of which it is the parent.
    pub down: bool,
}

/// Are both so?
fn both(one: bool, other: bool) -> bool
    ensures { IsTrue result ↔ (IsTrue one × IsTrue other) }
{
    one && other
}

/// To which of its links the device gives the frame of the record.
fn ends_of(network: &Network, body: &PlainBody, device: DeviceId) -> Directions
    requires by { CameBy (length network.now.link) body.now }
    ensures { (link : LinkOf) → Gives network.now body.now device link ↔ IsGivenBy network.now result device link }
{
    match &body.kind {
        PlainKind::Sent { device: master, .. } => Directions {
            up: device == *master,
            down: false,
        },
        PlainKind::Compressed { device: cm, .. } => Directions {
            up: false,
            down: device == *cm,
        },
        PlainKind::Arrived {
            device: relay,
            link: by,
            ..
        } => {
            let passes = both(device == *relay, is_relay(network, device));
            Directions {
                up: both(passes, is_above(network, device, *by)),
                down: both(passes, is_child(network, device, *by)),
            }
        }
        _ => Directions {
            up: false,
            down: false,
        },
    }
}

/// Is it given to none?
fn gives_none(ends: Directions) -> bool
    ensures { IsTrue result → (ends.up ≡ false) × (ends.down ≡ false) }
{
    !ends.up && !ends.down
}

/// Is a frame that the device gives so given to the link?
#[inline(always)]
fn is_given(link: &Link, ends: Directions, device: DeviceId) -> bool
    ensures { IsTrue result ↔ (((ends.up ≡ true) × (link.now.child ≡ device))
        ⊎ ((ends.down ≡ true) × (link.now.parent ≡ device))) }
{
    (link.child == device && ends.up) || (link.parent == device && ends.down)
}

/// A frame that a device gives to links: when, by which record, and what its clock reads.
#[derive(Clone, Copy)]
pub struct Giving {
    /// The device that gives it.
    pub device: DeviceId,
    /// When, in units of 2^-16 ns.
    pub time: u64,
    /// The number of the record.
    pub number: u64,
    /// The frame.
    pub frame: Pcf,
    /// What the device's clock reads then.
    pub reading: u64,
    /// Is the device broken?
    pub broken: bool,
}

/// The place of the frame at the port of the link.
fn port_place(
    network: &Network,
    ups: &[WayState],
    downs: &[WayState],
    giving: &Giving,
    link: LinkId,
) -> DueAt
    requires link { link.0 < length network.now.link }
    requires ups { length ups.now ≡ length network.now.link }
    requires downs { length downs.now ≡ length network.now.link }
    requires up_holds { All (λ w. w.hold < 2 ^ 62) ups.now }
    requires down_holds { All (λ w. w.hold < 2 ^ 62) downs.now }
    requires time { giving.now.time ≤ 2 ^ 60 }
    ensures { result ≡ place_at_port network.now ups.now downs.now giving.now link }
{
    let way = if is_above(network, giving.device, link) {
        downs[link.0 as usize]
    } else {
        ups[link.0 as usize]
    };
    DueAt {
        at: giving.time + way.hold,
        rank: u32::from(Rank::Left.number()),
        device: giving.device.0,
        link: link.0,
        cause: giving.number,
    }
}

/// What is put to a port.
fn content_of(giving: &Giving) -> Content
    ensures { result ≡ Content.Port giving.now.frame giving.now.reading }
{
    Content::Port(giving.frame, giving.reading)
}

/// Puts the frame to the port of the link.
#[inline(never)]
fn put_port(
    under_way: &mut UnderWay<Content>,
    network: &Network,
    ups: &[WayState],
    downs: &[WayState],
    giving: &Giving,
    link: LinkId,
)
    requires link { link.0 < length network.now.link }
    requires ups { length ups.now ≡ length network.now.link }
    requires downs { length downs.now ≡ length network.now.link }
    requires up_holds { All (λ w. w.hold < 2 ^ 62) ups.now }
    requires down_holds { All (λ w. w.hold < 2 ^ 62) downs.now }
    requires time { giving.now.time ≤ 2 ^ 60 }
    requires room { 0 < under_way.old.room }
    ensures entries { IsPermutation (entry_at_port network.now ups.now downs.now giving.now link
        ∷ under_way.old.entries) under_way.new.entries }
    ensures room { under_way.old.room ≤ under_way.new.room + 1 }
{
    let place = port_place(network, ups, downs, giving, link);
    under_way.put(place, content_of(giving));
}

/// Puts the frame of a record to each port to which its device gives it.
pub(crate) fn put_ports(
    under_way: &mut UnderWay<Content>,
    network: &Network,
    ups: &[WayState],
    downs: &[WayState],
    body: &PlainBody,
    giving: &Giving,
)
    requires by { CameBy (length network.now.link) body.now }
    requires few { length network.now.link < 2 ^ 32 }
    requires ups { length ups.now ≡ length network.now.link }
    requires downs { length downs.now ≡ length network.now.link }
    requires up_holds { All (λ w. w.hold < 2 ^ 62) ups.now }
    requires down_holds { All (λ w. w.hold < 2 ^ 62) downs.now }
    requires time { giving.now.time ≤ 2 ^ 60 }
    requires room { length network.now.link ≤ under_way.old.room }
    requires device { giving.now.device.0 < length network.now.device }
    ensures sound { AreBelow giving.now.number under_way.old.entries → AreUnderWay network.now under_way.old.entries
        → AreUnderWay network.now under_way.new.entries }
    ensures room { under_way.old.room ≤ under_way.new.room + length network.now.link }
    ensures put { ArePutTo (length network.now.link) network.now ups.now downs.now body.now giving.now
        under_way.old.entries under_way.new.entries }
{
    let ends = ends_of(network, body, giving.device);
    if gives_none(ends) {
        return;
    }
    let device = giving.device;
    let links = network.link.as_slice();
    for index in 0..links.len() {
        if is_given(&links[index], ends, device) {
            put_port(under_way, network, ups, downs, giving, LinkId(index as u32));
        }
    }
}

/// Gives a frame to the links to which its device gives it, or has it wait, where there is one.
#[inline(always)]
pub fn give_frame(
    under_way: &mut UnderWay<Content>,
    waiting: &mut Frames,
    network: &Network,
    ups: &[WayState],
    downs: &[WayState],
    body: &PlainBody,
    giving: Option<Giving>,
)
    requires range { IsInRange network.now }
    requires by { CameBy (length network.now.link) body.now }
    requires young { IsYoung (amount network.now.dmax) body.now }
    requires ups { length ups.now ≡ length network.now.link }
    requires downs { length downs.now ≡ length network.now.link }
    requires up_holds { All (λ w. w.hold < 2 ^ 62) ups.now }
    requires down_holds { All (λ w. w.hold < 2 ^ 62) downs.now }
    requires room { length network.now.link ≤ under_way.old.room }
    requires capacity { IfSome (waiter_of body.now) (λ d. 0 < room_of waiting.old d.0) }
    requires time { IfSome giving (λ g. g.time ≤ 2 ^ 60) }
    requires device { IfSome giving (λ g. g.device.0 < length network.now.device) }
    requires low { IfSome giving (λ g. g.reading ≤ 2 ^ 60 + 2 ^ 51) }
    ensures sound { IfSome giving (λ g. AreBelow g.number under_way.old.entries
        → AreUnderWay network.now under_way.old.entries
        → AreUnderWay network.now under_way.new.entries) }
    ensures room { under_way.old.room ≤ under_way.new.room + length network.now.link }
    ensures put { IfSome giving (λ g. ArePutTo (length network.now.link) network.now ups.now downs.now body.now g
        under_way.old.entries under_way.new.entries) }
    ensures waits { IfSome giving (λ g. IsOneMore
        (awaited_by network.now g.broken body.now (Some g.frame) g.reading g.number)
        waiting.old.items waiting.new.items) }
    ensures none { IfNone giving (under_way.new.entries ≡ under_way.old.entries) }
    ensures no_wait { IfNone giving (waiting.new.items ≡ waiting.old.items) }
{
    if let Some(giving) = giving {
        put_ports(under_way, network, ups, downs, body, &giving);
        let one = awaited(
            network,
            giving.broken,
            body,
            Some(giving.frame),
            giving.reading,
            giving.number,
        );
        wait_for(waiting, one);
    }
}

/// Takes room for what a record may launch, and a switch take by it.
#[inline(always)]
pub fn make_room(
    under_way: &mut UnderWay<Content>,
    waiting: &mut Frames,
    stored: &mut Shelves,
    network: &Network,
    waiter: Option<DeviceId>,
    taker: Option<HoldSpot>,
) -> Result<(), OutOfMemory>
    requires few { length network.now.link < 2 ^ 32 }
    ensures entries { under_way.new.entries ≡ under_way.old.entries }
    ensures waiting { waiting.new.items ≡ waiting.old.items }
    ensures stored { stored.new.items ≡ stored.old.items }
    ensures room { OnOk result (length network.now.link < under_way.new.room) }
    ensures capacity { OnOk result (IfSome waiter (λ d. 0 < room_of waiting.new d.0)) }
    ensures place { OnOk result (IfSome taker (HasPlace stored.new)) }
{
    let more = network.link.as_slice().len() + 1;
    if under_way.room() < more && under_way.reserve(more).is_err() {
        return Err(OutOfMemory);
    }
    if let Some(device) = waiter {
        waiting.reserve(device)?;
    }
    if let Some(spot) = taker {
        stored.reserve(spot)?;
    }
    Ok(())
}
