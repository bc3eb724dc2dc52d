//! The ballots of a run, by their places.

ghost use Rattle.std.specs.Prelude.{◌++◌, ◌+◌, ◌<◌, ◌^◌, ◌∷◌, ◌≡◌, List, OnOk, [], length};
ghost use Rattle.run_law.specs.{declared.note.NoteBody.NoteBody as BodyValue, records.Happenings.Happening};
ghost use Rattle.tte_observers.specs.declared.votes.law.voters.Voters.{Voters as VotersValue};
ghost use Rattle.tte_observers.specs.votes.ballots.Keeping.{AreBallots, delivery_in, seats_at};

use crate::votes::ballots::OutOfMemory;
use crate::votes::ballots::seats::{
    BallotDelivery, NONE_CAST, Seats, delivery_in, is_voter, key_of, seats_with,
};
use crate::votes::law::Voters;
use run_law::NoteBody;
use std::collections::BTreeMap;

/// The seats of the ballot at this place.
pub(crate) fn seats_at(ballots: &BTreeMap<u64, Seats>, key: u64) -> Seats
    ensures { result ≡ seats_at ballots.now key }
{
    match ballots.get(&key).copied() {
        Some(seats) => seats,
        None => NONE_CAST,
    }
}

/// Takes the record of this number, by which this is taken.
fn take(
    ballots: &mut BTreeMap<u64, Seats>,
    voters: Voters,
    delivery: BallotDelivery,
    number: u64,
) -> Result<(), OutOfMemory>
    ensures { (hs : List Happening) (h : Happening) → AreBallots hs voters ballots.old
        → delivery_in h.note.body ≡ Some delivery → number ≡ length hs + 1
        → OnOk result (AreBallots (hs ++ h ∷ []) voters ballots.new) }
{
    if !is_voter(voters, delivery.vl) {
        return Ok(());
    }
    let key = key_of(delivery.cycle, delivery.device);
    let seats = seats_with(voters, delivery.vl, number, seats_at(ballots, key));
    match ballots.insert(key, seats) {
        Ok(_) => Ok(()),
        Err(_) => Err(OutOfMemory),
    }
}

/// Takes the record of this number and body.
pub(crate) fn take_record(
    ballots: &mut BTreeMap<u64, Seats>,
    voters: Voters,
    number: u64,
    body: &NoteBody,
) -> Result<(), OutOfMemory>
    ensures { (hs : List Happening) (h : Happening) → AreBallots hs voters ballots.old
        → h.note.body ≡ body.now → number ≡ length hs + 1
        → OnOk result (AreBallots (hs ++ h ∷ []) voters ballots.new) }
{
    match delivery_in(body) {
        Some(delivery) => take(ballots, voters, delivery, number),
        None => Ok(()),
    }
}
