ghost use Rattle.std.specs.Prelude.{◌++◌, ◌+◌, ◌<◌, ◌^◌, ◌∷◌, ◌≡◌, ◌≢◌, ◌≤◌, IfOk, IfSome, List, MatchOption, OnOk, []};
ghost use Rattle.std.specs.Prelude.{length, ℕ};
ghost use Rattle.{device_rules.specs.frames.traced.Keeping.Keeps, run_law.specs.declared.note.Note.{Note as NoteValue}};
ghost use Rattle.{net_plan.specs.declared.network.Network.Network, tte_observers.specs.votes.law.Ballots.payload_in};
ghost use Rattle.tte_observers.specs.declared.votes.law.voters.Voters.{Voters as VotersValue};
ghost use Rattle.tte_observers.specs.votes.ballots.Keeping.{AreOpenFrom, HoldsFrom, HoldsVotes, IsNext, kept_count};
ghost use Rattle.tte_observers.specs.votes.{ballots.Keeping.{seat_payload, with_cast}, tmr.Vote.{IsOpen, payload_of}};

use crate::votes::ballots::keeping::take_record;
use crate::votes::ballots::seats::{Seats, cycle_of, device_of};
use crate::votes::law::Voters;
use crate::votes::tmr::Ballot;
use device_rules::frames::traced::{FrameTrace, OutOfMemory};
use net_plan::DeviceId;
use run_law::Note;
use schedule_tables::Accepted;
use std::alloc::Global;
use std::collections::BTreeMap;

/// How many octets stand before the payload of a frame.
const HEAD_OCTETS: usize = 14;

/// The ballots of a network's run so far: what its devices took of three virtual links, cycle by cycle.
#[derive(Drop)]
pub struct KeptVotes<'a> {
    frames: FrameTrace<'a>,
    voters: Voters,
    ballots: BTreeMap<u64, Seats>,
}

impl<'a> KeptVotes<'a> {
    /// The ballots of no records.
    pub fn new(
        alloc: Global,
        accepted: &'a Accepted,
        voters: Voters,
    ) -> Result<KeptVotes<'a>, OutOfMemory>
        ensures { IfOk result (λ votes. HoldsVotes accepted.now voters [] votes) }
    {
        match FrameTrace::new(alloc, accepted) {
            Ok(frames) => Ok(KeptVotes {
                frames,
                voters,
                ballots: BTreeMap::new(alloc),
            }),
            Err(error) => Err(error),
        }
    }

    /// Takes a further record. The records of a run come in their order, from number 1.
    pub fn note(&mut self, note: &Note) -> Result<(), OutOfMemory>
        ensures { (network : Network) (voters : VotersValue) (notes : List NoteValue)
            → HoldsVotes network voters notes self.old → note.now.number ≡ length notes + 1
            → OnOk result (HoldsVotes network voters (notes ++ note.now ∷ []) self.new) }
    {
        match self.frames.note(note) {
            Ok(()) => (),
            Err(error) => return Err(error),
        }
        take_record(&mut self.ballots, self.voters, note.number, &note.body)
    }

    /// Gives up the first of the ballots that are kept, by cycle and then by device, and shows it. Those that are
    /// passed over have no seat cast. It is None exactly where none is kept.
    pub fn next(&mut self, ballot: &mut Ballot) -> Option<(u32, DeviceId)>
        ensures next { (network : Network) (voters : VotersValue) (notes : List NoteValue) (from : ℕ)
            → HoldsFrom network voters notes from self.old
            → MatchOption result (AreOpenFrom network voters notes from (2 ^ 64))
            (λ place. IsNext network voters notes from place.0 place.1 ballot.new self.new) }
        ensures fewer { IfSome result (λ place. kept_count self.new < kept_count self.old) }
    {
        match self.ballots.pop_first() {
            Some((key, seats)) => {
                ballot.clear();
                cast(&self.frames, 0, seats.first, ballot);
                cast(&self.frames, 1, seats.second, ballot);
                cast(&self.frames, 2, seats.third, ballot);
                Some((cycle_of(key), device_of(key)))
            }
            None => None,
        }
    }
}

/// The payload of a frame: its octets behind the head.
fn payload_in(octets: &[u8]) -> &[u8]
    requires { length octets.now ≤ 1514 }
    ensures value { result.now ≡ payload_in octets.now }
    ensures most { length result.now ≤ 1500 }
{
    if octets.len() < HEAD_OCTETS {
        return &[];
    }
    octets.split_at(HEAD_OCTETS).1
}

/// Casts the seat with the payload of the record of this number, if there is one.
fn cast(frames: &FrameTrace<'_>, seat: u32, number: Option<u64>, ballot: &mut Ballot)
    requires { IsOpen ballot.old seat }
    ensures casts { (network : Network) (notes : List NoteValue) → Keeps network notes frames.now
        → ballot.new ≡ with_cast seat (seat_payload network notes number) ballot.old }
    ensures others { (other : ℕ) → other ≢ seat → payload_of ballot.new other ≡ payload_of ballot.old other }
{
    match number {
        Some(number) => match frames.octets(number) {
            Some(octets) => ballot.cast(seat, payload_in(octets.as_slice())),
            None => (),
        },
        None => (),
    }
}
