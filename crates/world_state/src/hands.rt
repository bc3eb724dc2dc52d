ghost use Rattle.std.specs.Prelude.{◌≡◌, ◌≤◌, ◌<◌, ◌-◌, Some, vec_capacity};
ghost use Rattle.world_state.specs.Acting.{IsHand, IsHeldIn, dispatched_by};

use crate::contents::{HoldSpot, Settled, Timed};
use crate::outcomes::bare;
use crate::packets::Packet;
use crate::shelves::Shelves;
use net_plan::DeviceId;
use run_law::plain::{PlainBody, PlainKind};
use schedule_tables::Entry;

/// The frame of a row that a device has at hand, and the number of the record by which a switch took it, or 0 at its
/// sender.
#[derive(Drop)]
pub struct AtHand {
    /// The number of that record, or 0.
    pub cause: u64,
    /// The frame's octets.
    pub octets: Timed,
}

/// The same octets, in memory that was taken before.
fn copied(octets: &Timed, room: &mut Vec<u8>) -> Timed
    requires { 1514 ≤ vec_capacity room.old }
    ensures { result ≡ octets.now }
{
    match octets {
        Timed::Made(vl, cycle) => Timed::Made(*vl, *cycle),
        Timed::Sent(given) => Timed::Sent(Packet::within(room, given.as_slice())),
    }
}

/// The frame of the virtual link that the switch holds.
fn held(stored: &Shelves, spot: HoldSpot, room: &mut Vec<u8>) -> Option<AtHand>
    requires { 1514 ≤ vec_capacity room.old }
    ensures { IsHeldIn stored.now.items spot.device spot.vl result }
{
    match stored.get(spot) {
        Some(holding) => Some(AtHand {
            cause: holding.number,
            octets: copied(&holding.octets, room),
        }),
        None => None,
    }
}

/// The frame that the device has at hand.
pub fn at_hand(
    stored: &Shelves,
    device: DeviceId,
    entry: &Entry,
    cycle: u32,
    room: &mut Vec<u8>,
) -> Option<AtHand>
    requires { 1514 ≤ vec_capacity room.old }
    ensures { IsHand stored.now.items device entry.now cycle result }
{
    if entry.vl.sender == device {
        return Some(AtHand {
            cause: 0,
            octets: Timed::Made(entry.row.vl, cycle),
        });
    }
    let vl = entry.row.vl;
    held(stored, HoldSpot { device, vl }, room)
}

/// The record of its dispatch, where its way is cut or not.
pub fn dispatched(cut: bool, device: DeviceId, entry: &Entry, cycle: u32, hand: AtHand) -> Settled
    ensures { result ≡ dispatched_by cut device entry.now cycle hand }
{
    if cut {
        return bare(PlainKind::Lost {
            device,
            link: entry.row.link,
            cause: hand.cause,
        });
    }
    Settled {
        body: PlainBody {
            kind: PlainKind::TtSent {
                device,
                link: entry.row.link,
                cause: hand.cause,
                vl: entry.row.vl,
                cycle,
            },
        },
        frame: None,
        octets: Some(hand.octets),
    }
}
