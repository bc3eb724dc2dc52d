//! Where and when frames arrive.

ghost use Rattle.std.specs.Prelude.{◌+◌, ◌^◌, ◌↔◌, ◌≡◌, ◌≤◌, IsTrue, List, Some, ℕ};
ghost use Rattle.audit_law.specs.events.{Readings.scenario_under, Remembering.Remembers};
ghost use Rattle.audit_sweep.specs.records.{Keeping.record_of, wires.Signals.{ShowsByCause, port_time}};
ghost use Rattle.audit_sweep.specs.records.wires.Receptions.{IsArriving, IsAt, IsOwedArrival, IsReceivedBy};
ghost use Rattle.net_plan.specs.{Belonging.HasLink, declared.network.Network.{Network as NetworkValue}};
ghost use Rattle.net_plan.specs.declared.event.Event.{Event as EventValue};
ghost use Rattle.{run_law.specs.records.Happenings.{Happening, numbered}, schedule_tables.specs.Entries.target_by};
ghost use Rattle.{run_law.specs.scenario.Ways.delay_at, tte_units.specs.OctetTime.octet_time};

use crate::records::KeptRecord;
use crate::records::wires::OnWire;
use crate::records::wires::putting::{Put, is_stopped, put_by};
use audit_law::events::EventHistory;
use net_plan::{DeviceId, Link, LinkId, Network, Way};
use tte_units::{Speed, octets};

/// A frame that arrives.
#[derive(Clone, Copy)]
pub struct Reception {
    pub device: DeviceId,
    pub link: LinkId,
    /// The world time, in units of 2^-16 ns.
    pub time: u64,
    pub what: OnWire,
}

/// What arrives by the time of what the record of the number `cause` puts on a wire, where and when. It is None exactly
/// where nothing does.
pub fn arrival_due(
    network: &Network,
    history: &EventHistory,
    kept: &KeptRecord,
    until: u64,
) -> Option<Reception>
    ensures received { (befallen : List EventValue) (h : Happening) → Remembers network.now befallen history.now
        → ShowsByCause network.now h → kept.now ≡ record_of h
        → IsReceivedBy (scenario_under network.now befallen) h until result }
    ensures owed { (befallen : List EventValue) (hs : List Happening) (h : Happening) (cause : ℕ)
        → Remembers network.now befallen history.now → numbered hs cause ≡ Some h → ShowsByCause network.now h
        → kept.now ≡ record_of h → IsOwedArrival (scenario_under network.now befallen) hs until cause result }
{
    received_by(network, history, kept, until)
}

/// What the record put on the link and arrives at the device by it at the time. It is None exactly where nothing does.
pub fn arriving(
    network: &Network,
    history: &EventHistory,
    kept: &KeptRecord,
    device: DeviceId,
    link: LinkId,
    time: u64,
) -> Option<OnWire>
    ensures { (befallen : List EventValue) (h : Happening) → Remembers network.now befallen history.now
        → ShowsByCause network.now h → kept.now ≡ record_of h
        → IsArriving (scenario_under network.now befallen) h device link time result }
{
    match received_by(network, history, kept, time) {
        Some(due) => {
            if is_at(&due, device, link, time) {
                Some(due.what)
            } else {
                None
            }
        }
        None => None,
    }
}

/// What arrives by the time of what the record puts on a wire.
fn received_by(
    network: &Network,
    history: &EventHistory,
    kept: &KeptRecord,
    until: u64,
) -> Option<Reception>
    ensures { (befallen : List EventValue) (h : Happening) → Remembers network.now befallen history.now
        → ShowsByCause network.now h → kept.now ≡ record_of h
        → IsReceivedBy (scenario_under network.now befallen) h until result }
{
    let put = match put_by(network, kept) {
        Some(put) => put,
        None => return None,
    };
    let link = match network.link.as_slice().get(put.link.0 as usize) {
        Some(link) => link,
        None => return None,
    };
    if is_stopped(history, kept, put.link) {
        return None;
    }
    let time = arrival_time(history, link.speed, kept.time, &put);
    if u128::from(until) < time {
        return None;
    }
    Some(Reception {
        device: target_by(put.way, link),
        link: put.link,
        time: time as u64,
        what: put.what,
    })
}

/// Does it arrive at this device, by this link and at this time?
fn is_at(due: &Reception, device: DeviceId, link: LinkId, time: u64) -> bool
    ensures { IsTrue result ↔ IsAt due.now device link time }
{
    due.device.0 == device.0 && due.link.0 == link.0 && due.time == time
}

/// When what is put on a link of this speed at the time arrives.
fn arrival_time(history: &EventHistory, speed: Speed, time: u64, put: &Put) -> u128
    ensures { (network : NetworkValue) (befallen : List EventValue) → Remembers network befallen history.now
        → HasLink network put.now.link → result ≡ time + port_time speed put.now.what
        + delay_at (scenario_under network befallen) put.now.link put.now.way time }
{
    let delay = history.delay(put.link, put.way, time);
    u128::from(time) + port_time(speed, &put.what) + u128::from(delay)
}

/// How long a frame is on its port before it has arrived.
fn port_time(speed: Speed, what: &OnWire) -> u128
    ensures value { result ≡ port_time speed what.now }
    ensures high { result ≤ 2 ^ 100 }
{
    match what {
        OnWire::Control(_) => 0,
        OnWire::Timed(heading) => (heading.length as u128 + 24) * u128::from(octet_time(speed)),
    }
}

/// How long an octet takes.
fn octet_time(speed: Speed) -> u64
    ensures value { result ≡ octet_time speed }
    ensures high { result ≤ 2 ^ 23 }
{
    octets(speed, 1).amount()
}

/// The device that receives on the way of the link.
fn target_by(way: Way, link: &Link) -> DeviceId
    ensures { result ≡ target_by way link.now }
{
    match way {
        Way::Up => link.parent,
        Way::Down => link.child,
    }
}
