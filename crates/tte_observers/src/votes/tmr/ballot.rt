ghost use Rattle.std.specs.Prelude.{◌≡◌, ◌≤◌, length, IfSome, MatchOption, None, Some};
ghost use Rattle.tte_observers.specs.votes.tmr.Vote.{IsOpen, IsVote, no_votes, payload_of, vote_of, with_payload};

use crate::votes::tmr::seat::Seat;
use std::marker::Model;

/// A ballot of three seats, 0 to 2. Contracts see the payload of each seat, if it is cast.
#[derive(Drop)]
pub struct Ballot {
    first: Seat,
    second: Seat,
    third: Seat,
}

impl Model for Ballot {
    ghost use Rattle.tte_observers.specs.votes.tmr.Vote.{Votes};

    ghost Value = { Votes };

    ghost view = { λ b. record { first = b.first; second = b.second; third = b.third } };
}

impl Ballot {
    /// A ballot on which no seat is cast.
    pub fn new() -> Ballot
        ensures { result ≡ no_votes }
    {
        Ballot {
            first: Seat::open(),
            second: Seat::open(),
            third: Seat::open(),
        }
    }

    /// No seat is cast any more.
    pub fn clear(&mut self)
        ensures { self.new ≡ no_votes }
    {
        self.first.clear();
        self.second.clear();
        self.third.clear();
    }

    /// Casts a seat that is not cast, with a payload of at most 1,500 octets.
    pub fn cast(&mut self, seat: u32, payload: &[u8])
        requires open { IsOpen self.old seat }
        requires most { length payload.now ≤ 1500 }
        ensures { self.new ≡ with_payload seat payload.now self.old }
    {
        match seat {
            0 => self.first.cast(payload),
            1 => self.second.cast(payload),
            _ => self.third.cast(payload),
        }
    }

    /// The least seat whose payload equals that of another cast seat. It is None exactly where no two cast payloads are
    /// equal.
    pub fn result(&self) -> Option<u32>
        ensures value { result ≡ vote_of self.now }
        ensures means { IsVote self.now result }
    {
        if self.first.equals(&self.second) || self.first.equals(&self.third) {
            Some(0)
        } else if self.second.equals(&self.third) {
            Some(1)
        } else {
            None
        }
    }

    /// The payload of a seat. It is None exactly where the seat is not cast or is at least 3.
    pub fn payload(&self, seat: u32) -> Option<&[u8]>
        ensures value { MatchOption result (payload_of self.now seat ≡ None)
            (λ payload. payload_of self.now seat ≡ Some payload.now) }
        ensures most { IfSome result (λ payload. length payload.now ≤ 1500) }
    {
        match seat {
            0 => self.first.payload(),
            1 => self.second.payload(),
            2 => self.third.payload(),
            _ => None,
        }
    }
}
