ghost use Rattle.std.specs.Prelude.{◌≡◌, [], ◌+◌, ◌<◌, ◌≤◌, ◌^◌, All, length, OnOk};
ghost use Rattle.std.specs.VecDeque.{deque_capacity, deque_len};
ghost use Rattle.run_law.specs.{control.Wires.{signal_of, time_on_port}, plain.Bodies.body_of};
ghost use Rattle.world_state.specs.Befalling.{AreSettledBy, bare, entry_of, lost_on, record_of, sent_up, turned_on};

use crate::OutOfMemory;
use crate::contents::{Befallen, Content, Settled, Signal, WayState};
use crate::packets::{Happened, Happening, Packet};
use crate::queue::{DueAt, Entry, UnderWay};
use crate::sending::{frame_time, put_on};
use crate::settled::put_some;
use net_plan::{DeviceId, Link, LinkId, Network};
use pcf_codec::is_pcf;
use run_law::Why;
use run_law::plain::{PlainBody, PlainKind, Rank};
use std::collections::VecDeque;
use std::mem::replace;

/// How long octets are on their port.
fn port_time(network: &Network, link: LinkId, given: &[u8]) -> u64
    requires least { 60 ≤ length given.now }
    requires short { length given.now ≤ 1514 }
    ensures time { result ≡ time_on_port network.now link (signal_of given.now) }
    ensures most { result ≤ 2 ^ 40 }
{
    if is_pcf(given) {
        return 0;
    }
    frame_time(network, link, given.len() as u32)
}

/// A record that has neither a frame nor octets.
fn bare(kind: PlainKind) -> Settled
    ensures { result ≡ bare (body_of kind) }
{
    Settled {
        body: PlainBody { kind },
        frame: None,
        octets: None,
    }
}

/// The record that a device is turned on, unless it is broken.
fn turned_on(number: u64, device: DeviceId, broken: bool) -> Option<Settled>
    ensures { result ≡ turned_on number device broken }
{
    if broken {
        return None;
    }
    Some(bare(PlainKind::State {
        device,
        state: sync_state::State::Integrating,
        cause: number,
        why: Why::On,
    }))
}

/// The record that octets meet a cut way, where it is cut.
fn lost_on(number: u64, link: LinkId, found: &Link, way: WayState) -> Option<Settled>
    ensures { result ≡ lost_on number link found.now way }
{
    if !way.cut {
        return None;
    }
    Some(bare(PlainKind::Lost {
        device: found.child,
        link,
        cause: number,
    }))
}

/// The record of what comes of an event.
fn record_of(
    network: &Network,
    broken: &[bool],
    ups: &[WayState],
    number: u64,
    what: &Happened,
) -> Option<Settled>
    ensures { result ≡ record_of network.now broken.now ups.now number what.now }
{
    match &what.happening {
        Happening::On(device) => turned_on(number, *device, *broken.get(device.0 as usize)?),
        Happening::Send(link, _) => {
            let found = network.link.as_slice().get(link.0 as usize)?;
            lost_on(number, *link, found, *ups.get(link.0 as usize)?)
        }
        Happening::End => None,
    }
}

/// The octets on the way up, where it is not cut.
fn sent_up(
    network: &Network,
    time: u64,
    number: u64,
    link: LinkId,
    given: Packet,
    found: &Link,
    way: WayState,
) -> Option<Entry<Content>>
    requires time { time ≤ 2 ^ 60 }
    requires delay { way.delay < 2 ^ 62 }
    ensures { result ≡ sent_up network.now time number link given found.now way }
{
    if way.cut {
        return None;
    }
    let place = DueAt {
        at: time + port_time(network, link, given.as_slice()) + way.delay,
        rank: u32::from(Rank::Arrived.number()),
        device: found.parent.0,
        link: link.0,
        cause: number,
    };
    Some(Entry {
        place,
        content: Content::Wire(Signal::Octets(given)),
    })
}

/// What an event puts on a wire.
fn entry_of(
    network: &Network,
    ups: &[WayState],
    time: u64,
    number: u64,
    what: Happened,
) -> Option<Entry<Content>>
    requires time { time ≤ 2 ^ 60 }
    requires delays { All (λ w. w.delay < 2 ^ 62) ups.now }
    ensures { result ≡ entry_of network.now ups.now time number what }
{
    match what.happening {
        Happening::Send(link, given) => {
            let found = network.link.as_slice().get(link.0 as usize)?;
            let way = *ups.get(link.0 as usize)?;
            sent_up(network, time, number, link, given, found, way)
        }
        Happening::On(_) | Happening::End => None,
    }
}

/// Settles what comes of each that befell, and forgets them.
pub fn settle_all(
    befell: &mut Vec<Befallen>,
    under_way: &mut UnderWay<Content>,
    settled: &mut VecDeque<Settled>,
    network: &Network,
    broken: &[bool],
    ups: &[WayState],
    time: u64,
)
    requires time { time ≤ 2 ^ 60 }
    requires delays { All (λ w. w.delay < 2 ^ 62) ups.now }
    requires room { length befell.old.items ≤ under_way.old.room }
    requires queue { deque_len settled.old + length befell.old.items ≤ deque_capacity settled.old }
    ensures none { befell.new.items ≡ [] }
    ensures are { AreSettledBy network.now broken.now ups.now time befell.old.items settled.old.items settled.new.items
        under_way.old.entries under_way.new.entries }
{
    for index in 0..befell.len() {
        let number = befell[index].number;
        let nothing = Happened {
            happening: Happening::End,
        };
        let what = replace(&mut befell[index].what, nothing);
        put_some(settled, record_of(network, broken, ups, number, &what));
        put_on(under_way, entry_of(network, ups, time, number, what));
    }
    befell.clear();
}

/// Takes room for what comes of so many events.
pub fn make_room(
    under_way: &mut UnderWay<Content>,
    settled: &mut VecDeque<Settled>,
    more: usize,
) -> Result<(), OutOfMemory>
    ensures entries { under_way.new.entries ≡ under_way.old.entries }
    ensures items { settled.new.items ≡ settled.old.items }
    ensures room { OnOk result (more ≤ under_way.new.room) }
    ensures queue { OnOk result (deque_len settled.new + more ≤ deque_capacity settled.new) }
{
    under_way.reserve(more)?;
    settled.reserve(more)?;
    Ok(())
}
