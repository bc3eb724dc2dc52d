ghost use Rattle.std.specs.Prelude.{◌≡◌, ◌/◌, ◌%◌, ◌||◌, ◌==◌, ◌<◌, ◌^◌};
ghost use Rattle.tte_observers.specs.votes.ballots.Keeping.{delivery_in, is_voter, key_of, seat_with, seats_with};

use crate::votes::law::Voters;
use net_plan::{DeviceId, VlId};
use run_law::NoteBody;

/// The numbers of the records by which the seats of a ballot are cast, as far as they are.
#[derive(Clone, Copy)]
pub(crate) struct Seats {
    pub first: Option<u64>,
    pub second: Option<u64>,
    pub third: Option<u64>,
}

/// A device takes a frame of the virtual link, in this cycle of its own.
#[derive(Clone, Copy)]
pub(crate) struct BallotDelivery {
    pub vl: VlId,
    pub cycle: u32,
    pub device: DeviceId,
}

/// No seat is cast.
pub(crate) const NONE_CAST: Seats = Seats {
    first: None,
    second: None,
    third: None,
};

/// What is taken by a record of this body, if something is.
pub(crate) fn delivery_in(body: &NoteBody) -> Option<BallotDelivery>
    ensures { result ≡ delivery_in body.now }
{
    match body {
        NoteBody::Delivered {
            device,
            vl,
            cycle,
            ..
        } => Some(BallotDelivery {
            vl: *vl,
            cycle: *cycle,
            device: *device,
        }),
        NoteBody::Event { .. }
        | NoteBody::Arrived { .. }
        | NoteBody::Permanent { .. }
        | NoteBody::Compressed { .. }
        | NoteBody::Sent { .. }
        | NoteBody::Corrected { .. }
        | NoteBody::State { .. }
        | NoteBody::Left { .. }
        | NoteBody::Lost { .. }
        | NoteBody::TtSent { .. }
        | NoteBody::Accepted { .. }
        | NoteBody::Dropped { .. }
        | NoteBody::Clock { .. } => None,
    }
}

/// The place of a ballot among all ballots: by cycle, and then by device.
pub(crate) fn key_of(cycle: u32, device: DeviceId) -> u64
    ensures value { result ≡ key_of cycle device }
    ensures cycle { cycle < 2 ^ 32 }
    ensures device { device.0 < 2 ^ 32 }
{
    u64::from(cycle) * 0x1_0000_0000 + u64::from(device.0)
}

/// The cycle of the ballot at this place.
pub(crate) fn cycle_of(key: u64) -> u32
    ensures { result ≡ key / 2 ^ 32 }
{
    (key >> 32) as u32
}

/// The device of the ballot at this place.
pub(crate) fn device_of(key: u64) -> DeviceId
    ensures { result.0 ≡ key % 2 ^ 32 }
{
    DeviceId((key % 0x1_0000_0000) as u32)
}

/// Is it a virtual link of the vote?
pub(crate) fn is_voter(voters: Voters, vl: VlId) -> bool
    ensures { result ≡ is_voter voters vl }
{
    vl.0 == voters.first.0 || vl.0 == voters.second.0 || vl.0 == voters.third.0
}

/// The seat of a virtual link, behind the record of this number, by which a frame of another is taken, or of the same.
/// The first record stays.
fn seat_with(voter: VlId, vl: VlId, number: u64, seat: Option<u64>) -> Option<u64>
    ensures { result ≡ seat_with voter vl number seat }
{
    match seat {
        Some(first) => Some(first),
        None if voter.0 == vl.0 => Some(number),
        None => None,
    }
}

/// The seats of a ballot, behind the record of this number, by which a frame of the virtual link is taken.
pub(crate) fn seats_with(voters: Voters, vl: VlId, number: u64, seats: Seats) -> Seats
    ensures { result ≡ seats_with voters vl number seats }
{
    Seats {
        first: seat_with(voters.first, vl, number, seats.first),
        second: seat_with(voters.second, vl, number, seats.second),
        third: seat_with(voters.third, vl, number, seats.third),
    }
}
