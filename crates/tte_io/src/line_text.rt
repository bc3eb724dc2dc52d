ghost use Rattle.std.specs.Prelude.{◌≡◌, ◌≤◌, ◌+◌, ◌*◌, ◌↔◌, [], ◌∷◌, ◌++◌, length, decimal, take, IsTrue};
ghost use Rattle.{hex.specs.Hex.encode_lower, tte_io.specs.Line.line_limit};

use crate::digits::digit_count;
use crate::hexadecimal::spell;
use itoa::write_digits;
use std::marker::Model;

/// How many octets a line has at most.
const ROOM: usize = 4096;

/// A text of at most 4,096 octets, made piece by piece in place. It takes no memory.
#[derive(Drop)]
pub struct LineText {
    octets: [u8; ROOM],
    len: usize,
}

impl Model for LineText {
    ghost use Rattle.std.specs.Prelude.{ℕ, List, take, ◌≤◌};
    ghost use Rattle.tte_io.specs.Line.{line_limit};

    ghost Value = { List ℕ };

    ghost view = { λ t. take t.len t.octets };

    ghost invariant = { λ t. t.len ≤ line_limit };
}

impl LineText {
    /// An empty text.
    pub fn new() -> LineText
        ensures { result ≡ [] }
    {
        LineText {
            octets: [0; ROOM],
            len: 0,
        }
    }

    /// Makes the text empty.
    pub fn clear(&mut self)
        ensures { self.new ≡ [] }
    {
        self.len = 0;
    }

    pub(crate) fn is_empty(&self) -> bool
        ensures { IsTrue result ↔ (self.now ≡ []) }
    {
        self.len == 0
    }

    /// How many more octets there is room for.
    pub(crate) fn room_left(&self) -> usize
        ensures { result + length self.now ≡ line_limit }
    {
        ROOM - self.len
    }

    /// Adds octets, for which there is room.
    pub fn append(&mut self, octets: &[u8])
        requires { length self.old + length octets.now ≤ line_limit }
        ensures { self.new ≡ self.old ++ octets.now }
    {
        let end = self.len + octets.len();
        self.octets[self.len..end].copy_from_slice(octets);
        self.len = end;
    }

    /// Adds the first `count` octets of a text that is padded to N, for which there is room.
    #[inline(always)]
    pub fn append_padded<const N: usize>(&mut self, octets: &[u8; N], count: usize)
        requires count { count ≤ N }
        requires room { length self.old + N ≤ line_limit }
        ensures text { self.new ≡ self.old ++ take count octets.now }
        ensures grows { length self.new ≡ length self.old + count }
    {
        let end = self.len + N;
        self.octets[self.len..end].copy_from_slice(octets);
        self.len += count;
    }

    /// Adds a text, for which there is room.
    pub fn push(&mut self, text: &str)
        requires { length self.old + length text.now ≤ line_limit }
        ensures text { self.new ≡ self.old ++ text.now }
        ensures grows { length self.new ≡ length self.old + length text.now }
    {
        self.append(text.as_bytes());
    }

    /// Adds one octet, for which there is room.
    fn push_octet(&mut self, octet: u8)
        requires { length self.old + 1 ≤ line_limit }
        ensures { self.new ≡ self.old ++ octet ∷ [] }
    {
        self.octets[self.len] = octet;
        self.len += 1;
    }

    /// Adds a number in decimal, which takes at most 20 octets.
    #[tactic(auto, using(std::proofs::lemmas::Fmt::decimal_digit))]
    pub fn push_decimal(&mut self, n: u64)
        requires { length self.old + 20 ≤ line_limit }
        ensures text { self.new ≡ self.old ++ decimal n }
        ensures grows { length self.new ≤ length self.old + 20 }
    {
        // Most numbers of a line have one digit.
        if n < 10 {
            self.push_octet(b'0' + n as u8);
        } else {
            let end = self.len + digit_count(n);
            write_digits(n, &mut self.octets, end);
            self.len = end;
        }
    }

    /// Adds octets in lower-case hexadecimal, two digits each.
    pub fn push_hex(&mut self, octets: &[u8])
        requires { length self.old + 2 * length octets.now ≤ line_limit }
        ensures text { self.new ≡ self.old ++ encode_lower octets.now }
        ensures grows { length self.new ≡ length self.old + 2 * length octets.now }
    {
        let end = self.len + 2 * octets.len();
        spell(octets, &mut self.octets[self.len..end]);
        self.len = end;
    }

    /// The text.
    pub fn as_slice(&self) -> &[u8]
        ensures { result.now ≡ self.now }
    {
        &self.octets[..self.len]
    }
}
