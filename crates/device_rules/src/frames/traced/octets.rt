ghost use Rattle.std.specs.Prelude.{◌≡◌, ◌≤◌, length};

use std::marker::Model;

/// How many octets a frame has at most, without its check sequence.
pub(crate) const MOST_OCTETS: usize = 1514;

/// The octets of a record's frame, kept in place: at most 1,514.
#[derive(Drop)]
pub struct OctetsOfRecord {
    octets: [u8; MOST_OCTETS],
    len: usize,
}

impl Model for OctetsOfRecord {
    ghost use Rattle.std.specs.Prelude.{ℕ, List, ◌≤◌, take};

    ghost Value = { List ℕ };

    ghost view = { λ o. take o.len o.octets };

    ghost invariant = { λ o. o.len ≤ 1514 };
}

impl OctetsOfRecord {
    /// Keeps at most 1,514 octets.
    pub(crate) fn new(octets: &[u8]) -> OctetsOfRecord
        requires { length octets.now ≤ 1514 }
        ensures { result ≡ octets.now }
    {
        let mut kept = [0; MOST_OCTETS];
        kept[..octets.len()].copy_from_slice(octets);
        OctetsOfRecord {
            octets: kept,
            len: octets.len(),
        }
    }

    /// The octets.
    pub fn as_slice(&self) -> &[u8]
        ensures value { result.now ≡ self.now }
        ensures most { length result.now ≤ 1514 }
    {
        &self.octets[..self.len]
    }
}
