ghost use Rattle.std.specs.Prelude.{◌+◌, ◌<◌, ◌^◌, ◌≡◌, ◌≤◌, All, List, length, ℕ};
ghost use Rattle.{net_plan.specs.Ranges.IsInRange, run_law.specs.control.Wires.{time_on_port, timed}};
ghost use Rattle.world_state.specs.{Giving.{IsPutOn, place_on_wire, wire_entry}, Views.octets_of};

use crate::contents::{Content, Signal, Timed, WayState};
use crate::queue::{DueAt, Entry, UnderWay};
use device_rules::is_parent_of;
use net_plan::{DeviceId, LinkId, Network};
use run_law::plain::{PlainBody, PlainKind, Rank};
use tte_units::frames::Pcf;
use tte_units::octets;

/// How many octets a frame of the schedule has.
fn octet_count(network: &Network, timed: &Timed) -> u32
    requires { IsInRange network.now }
    ensures count { result ≡ length (octets_of network.now timed.now) }
    ensures most { result ≤ 1514 }
{
    match timed {
        Timed::Made(vl, _) => match network.vl.as_slice().get(vl.0 as usize) {
            Some(found) => u32::from(found.length),
            None => 60,
        },
        Timed::Sent(octets) => octets.as_slice().len() as u32,
    }
}

/// How long a frame of so many octets, at most 1,514, is on the port of a link, in units of 2^-16 ns: 0 where the
/// network has no such link.
pub fn frame_time(network: &Network, link: LinkId, count: u32) -> u64
    requires { count ≤ 1514 }
    ensures time { (given : List ℕ) → length given ≡ count → result ≡ time_on_port network.now link (timed given) }
    ensures most { result ≤ 2 ^ 40 }
{
    match network.link.as_slice().get(link.0 as usize) {
        Some(found) => octets(found.speed, count + 24).amount(),
        None => 0,
    }
}

/// How long a frame of the schedule is on its port.
fn port_time(network: &Network, link: LinkId, frame: &Timed) -> u64
    requires { IsInRange network.now }
    ensures time { result ≡ time_on_port network.now link (timed (octets_of network.now frame.now)) }
    ensures most { result ≤ 2 ^ 40 }
{
    frame_time(network, link, octet_count(network, frame))
}

/// What is sent on a link: by which device, when, by which record, and how long it is on the port.
#[derive(Clone, Copy)]
pub struct PortSending {
    /// The device that sends it.
    pub device: DeviceId,
    /// The link.
    pub link: LinkId,
    /// When, in units of 2^-16 ns.
    pub time: u64,
    /// The number of the record.
    pub number: u64,
    /// How long it is on the port, in units of 2^-16 ns.
    pub on_port: u64,
}

/// Where what is sent on a link arrives.
#[inline(always)]
fn wire_place(
    network: &Network,
    ups: &[WayState],
    downs: &[WayState],
    sending: PortSending,
) -> Option<DueAt>
    requires ups { length ups.now ≡ length network.now.link }
    requires downs { length downs.now ≡ length network.now.link }
    requires up_delays { All (λ w. w.delay < 2 ^ 62) ups.now }
    requires down_delays { All (λ w. w.delay < 2 ^ 62) downs.now }
    requires time { sending.time ≤ 2 ^ 60 }
    requires port { sending.on_port ≤ 2 ^ 40 }
    ensures { result ≡ place_on_wire network.now ups.now downs.now sending.device sending.link sending.time
        sending.on_port sending.number }
{
    let link = sending.link;
    let index = link.0 as usize;
    let found = network.link.as_slice().get(index)?;
    let sent = sending.time + sending.on_port;
    if is_parent_of(network, sending.device, link) {
        Some(DueAt {
            at: sent + downs[index].delay,
            rank: u32::from(Rank::Arrived.number()),
            device: found.child.0,
            link: link.0,
            cause: sending.number,
        })
    } else {
        Some(DueAt {
            at: sent + ups[index].delay,
            rank: u32::from(Rank::Arrived.number()),
            device: found.parent.0,
            link: link.0,
            cause: sending.number,
        })
    }
}

/// What a record puts on a wire.
#[inline(always)]
pub fn sent_by(
    network: &Network,
    ups: &[WayState],
    downs: &[WayState],
    body: &PlainBody,
    frame: Option<Pcf>,
    octets: Option<Timed>,
    time: u64,
    number: u64,
) -> Option<Entry<Content>>
    requires range { IsInRange network.now }
    requires ups { length ups.now ≡ length network.now.link }
    requires downs { length downs.now ≡ length network.now.link }
    requires up_delays { All (λ w. w.delay < 2 ^ 62) ups.now }
    requires down_delays { All (λ w. w.delay < 2 ^ 62) downs.now }
    requires time { time ≤ 2 ^ 60 }
    ensures { result ≡ wire_entry network.now ups.now downs.now body.now frame octets time number }
{
    match &body.kind {
        PlainKind::Left { device, link, .. } => {
            let frame = frame?;
            let sending = PortSending {
                device: *device,
                link: *link,
                time,
                number,
                on_port: 0,
            };
            let place = wire_place(network, ups, downs, sending)?;
            Some(Entry {
                place,
                content: Content::Wire(Signal::Control(frame)),
            })
        }
        PlainKind::TtSent { device, link, .. } => {
            let octets = octets?;
            let sending = PortSending {
                device: *device,
                link: *link,
                time,
                number,
                on_port: port_time(network, *link, &octets),
            };
            let place = wire_place(network, ups, downs, sending)?;
            Some(Entry {
                place,
                content: Content::Wire(Signal::Timed(octets)),
            })
        }
        _ => None,
    }
}

/// Puts it under way, where there is one.
#[inline(always)]
pub fn put_on(under_way: &mut UnderWay<Content>, entry: Option<Entry<Content>>)
    requires { 0 < under_way.old.room }
    ensures room { under_way.old.room ≤ under_way.new.room + 1 }
    ensures put { IsPutOn entry under_way.old.entries under_way.new.entries }
{
    if let Some(entry) = entry {
        under_way.put(entry.place, entry.content);
    }
}
