ghost use Rattle.std.specs.Prelude.{◌≡◌, ◌↔◌, ◌≤◌, length, IfSome, MatchOption, IsTrue, Some, None};
ghost use Rattle.tte_observers.specs.votes.tmr.Vote.{AreEqual, are_equal};

use std::marker::Model;

/// How many octets a payload has at most: those of a frame behind its head.
const MOST_OCTETS: usize = 1500;

/// A seat of a ballot: its payload, in place, if it is cast.
#[derive(Drop)]
pub(crate) struct Seat {
    octets: [u8; MOST_OCTETS],
    len: Option<usize>,
}

impl Model for Seat {
    ghost use Rattle.std.specs.Prelude.{ℕ, List, Option, IfSome, ◌≤◌, option_map, take};

    ghost Value = { Option (List ℕ) };

    ghost view = { λ s. option_map (λ len. take len s.octets) s.len };

    ghost invariant = { λ s. IfSome s.len (λ len. len ≤ 1500) };
}

impl Seat {
    /// A seat that is not cast.
    pub fn open() -> Seat
        ensures { result ≡ None }
    {
        Seat {
            octets: [0; MOST_OCTETS],
            len: None,
        }
    }

    /// It is not cast any more.
    pub fn clear(&mut self)
        ensures { self.new ≡ None }
    {
        self.len = None;
    }

    /// It is cast with this payload.
    pub fn cast(&mut self, payload: &[u8])
        requires { length payload.now ≤ 1500 }
        ensures { self.new ≡ Some payload.now }
    {
        self.octets[..payload.len()].copy_from_slice(payload);
        self.len = Some(payload.len());
    }

    /// Its payload. It is None exactly where it is not cast.
    pub fn payload(&self) -> Option<&[u8]>
        ensures value { MatchOption result (self.now ≡ None) (λ payload. self.now ≡ Some payload.now) }
        ensures most { IfSome result (λ payload. length payload.now ≤ 1500) }
    {
        match self.len {
            Some(len) => Some(&self.octets[..len]),
            None => None,
        }
    }

    /// Are both cast, and their payloads equal?
    pub fn equals(&self, other: &Seat) -> bool
        ensures value { result ≡ are_equal self.now other.now }
        ensures means { IsTrue result ↔ AreEqual self.now other.now }
    {
        match (self.payload(), other.payload()) {
            (Some(own), Some(others)) => own == others,
            _ => false,
        }
    }
}
