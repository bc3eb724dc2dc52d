ghost use Rattle.std.specs.Prelude.{◌≡◌, ◌<◌, ◌^◌, ◌↔◌, ℕ, IsSome, IfSome};

use std::marker::Model;

/// A MAC address (IEEE 802.3): six octets, as the number that they spell, below 2^48.
#[derive(Clone, Copy, PartialEq, Eq, PartialOrd, Ord)]
pub struct Mac(u64);

impl Model for Mac {
    ghost Value = { ℕ };

    ghost view = { λ m. m.0 };

    ghost invariant = { λ m. m.0 < 2 ^ 48 };

    ghost inverse = { λ n. record { 0 = n } };
}

impl Mac {
    /// The address of this number. It is None exactly where `n` is 2^48 or more.
    pub fn new(n: u64) -> Option<Mac>
        ensures found { IsSome result ↔ (n < 2 ^ 48) }
        ensures value { IfSome result (λ m. m ≡ n) }
    {
        if n < 1 << 48 { Some(Mac(n)) } else { None }
    }

    /// The address of a number that is known to have six octets.
    pub fn from_number(n: u64) -> Mac
        requires { n < 2 ^ 48 }
        ensures { result ≡ n }
    {
        Mac(n)
    }

    /// The number that the six octets spell, the greatest first.
    pub fn number(self) -> u64
        ensures value { result ≡ self }
        ensures bound { result < 2 ^ 48 }
    {
        self.0
    }
}
