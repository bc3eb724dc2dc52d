ghost use Rattle.std.specs.Prelude.{◌≡◌, ◌↔◌, ◌≤◌, IsTrue, length, take};
ghost use Rattle.net_plan.specs.NameText.{IsNameText};

use std::marker::Model;

const ROOM: usize = 16;

/// The name of a device, a link or a virtual link: at most 16 octets, kept in place.
#[derive(Clone, Copy, PartialEq, Eq)]
pub struct Name {
    octets: [u8; ROOM],
    len: u8,
}

impl Model for Name {
    ghost use Rattle.std.specs.Prelude.{ℕ, List, length, take};
    ghost use Rattle.net_plan.specs.Padding.{IsPadded, padded};

    ghost Value = { List ℕ };

    ghost view = { λ n. take n.len n.octets };

    ghost invariant = { λ n. IsPadded 16 n.octets n.len };

    ghost inverse = { λ xs. record { octets = padded 16 xs; len = length xs } };

    ghost use Rattle.net_plan.specs.Unpacking.{name_back};

    ghost inverse_ok = { λ n h. name_back n h };
}

impl Name {
    /// The name of this text: 1 to 16 characters, each a lower-case ASCII letter, a digit or `_`.
    pub fn new(name: &str) -> Name
        requires { IsNameText name.now }
        ensures { result ≡ name.now }
    {
        let mut octets = [0; ROOM];
        octets[..name.len()].copy_from_slice(name.as_bytes());
        Name {
            octets,
            len: name.len() as u8,
        }
    }

    /// The octets of the name's text, and behind them zeros, 16 in all.
    #[inline(always)]
    pub fn padded(&self) -> &[u8; ROOM]
        ensures { take (length self.now) result.now ≡ self.now }
    {
        &self.octets
    }

    /// How many octets the name's text has: at most 16.
    #[inline(always)]
    pub fn count(&self) -> usize
        ensures count { result ≡ length self.now }
        ensures most { result ≤ 16 }
    {
        self.len as usize
    }

    /// The octets of the name's text.
    pub fn as_slice(&self) -> &[u8]
        ensures { result.now ≡ self.now }
    {
        &self.octets[..self.len as usize]
    }

    /// Is this the name with the given text?
    pub fn is(&self, text: &str) -> bool
        ensures { IsTrue result ↔ (self.now ≡ text.now) }
    {
        self.as_slice() == text.as_bytes()
    }
}
