ghost use Rattle.std.specs.Prelude.{◌≡◌, ◌≤◌, length};

use std::marker::Model;

const ROOM: usize = 1514;

/// The octets of a frame without its check sequence, 60 to 1,514 of them, kept in place.
#[derive(Clone, PartialEq, Eq, Drop)]
pub struct Octets {
    octets: [u8; ROOM],
    len: u16,
}

impl Model for Octets {
    ghost use Rattle.std.specs.Prelude.{ℕ, List, ◌≤◌, length, take};
    ghost use Rattle.net_plan.specs.Padding.{IsPadded, padded};

    ghost Value = { List ℕ };

    ghost view = { λ o. take o.len o.octets };

    ghost invariant = { λ o. (60 ≤ o.len) × IsPadded 1514 o.octets o.len };

    ghost inverse = { λ xs. record { octets = padded 1514 xs; len = length xs } };

    ghost use Rattle.net_plan.specs.Unpacking.{octets_back};

    ghost inverse_ok = { λ o h. octets_back o h.1 };
}

impl Octets {
    /// Keeps the octets of a frame: 60 to 1,514 of them.
    pub fn new(octets: &[u8]) -> Octets
        requires least { 60 ≤ length octets.now }
        requires most { length octets.now ≤ 1514 }
        ensures { result ≡ octets.now }
    {
        let mut kept = [0; ROOM];
        kept[..octets.len()].copy_from_slice(octets);
        Octets {
            octets: kept,
            len: octets.len() as u16,
        }
    }

    /// The octets as they were given.
    pub fn as_slice(&self) -> &[u8]
        ensures value { result.now ≡ self.now }
        ensures least { 60 ≤ length result.now }
        ensures most { length result.now ≤ 1514 }
    {
        &self.octets[..self.len as usize]
    }
}
