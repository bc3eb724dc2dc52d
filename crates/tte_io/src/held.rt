ghost use Rattle.std.specs.Prelude.{◌≡◌, ◌≤◌, ◌+◌, [], ◌++◌, length, drop, IsTrue};
ghost use Rattle.tte_io.specs.Holding.{held_limit, LosesFront};

use std::marker::Model;

/// How many octets are held at most.
const ROOM: usize = 16_384;

/// Octets that were put and are not written yet.
#[derive(Drop)]
pub(crate) struct HeldOctets {
    octets: [u8; ROOM],
    len: usize,
}

impl Model for HeldOctets {
    ghost use Rattle.std.specs.Prelude.{ℕ, List, take, ◌≤◌};
    ghost use Rattle.tte_io.specs.Holding.{held_limit};

    ghost Value = { List ℕ };

    ghost view = { λ h. take h.len h.octets };

    ghost invariant = { λ h. h.len ≤ held_limit };
}

impl HeldOctets {
    pub(crate) fn new() -> HeldOctets
        ensures { result ≡ [] }
    {
        HeldOctets {
            octets: [0; ROOM],
            len: 0,
        }
    }

    fn as_slice(&self) -> &[u8]
        ensures { result.now ≡ self.now }
    {
        &self.octets[..self.len]
    }

    /// How many more octets there is room for.
    fn room_left(&self) -> usize
        ensures { result + length self.now ≡ held_limit }
    {
        ROOM - self.len
    }

    /// Adds octets, for which there is room.
    fn append(&mut self, octets: &[u8])
        requires { length self.old + length octets.now ≤ held_limit }
        ensures { self.new ≡ self.old ++ octets.now }
    {
        let end = self.len + octets.len();
        self.octets[self.len..end].copy_from_slice(octets);
        self.len = end;
    }

    /// Lets the first `count` octets go.
    fn consume(&mut self, count: usize)
        requires { count ≤ length self.old }
        ensures { self.new ≡ drop count self.old }
    {
        self.octets.copy_within(count..self.len, 0);
        self.len -= count;
    }

    /// Writes out all that is held, and answers whether that went well. What was not written stays.
    pub(crate) fn write_out<R: Print>(&mut self, rt: &R) -> bool
        ensures all { IsTrue result → self.new ≡ [] }
        ensures front { LosesFront self.old self.new }
    {
        let count = write_front(rt, self.as_slice());
        self.consume(count);
        self.len == 0
    }

    /// Takes octets behind those that are held, and answers whether that went well. Where there is
    /// no room for them it writes out first.
    #[inline(always)]
    pub(crate) fn take<R: Print>(&mut self, rt: &R, octets: &[u8]) -> bool {
        if octets.len() <= self.room_left() {
            self.append(octets);
            return true;
        }
        self.take_more(rt, octets)
    }

    #[inline(never)]
    fn take_more<R: Print>(&mut self, rt: &R, octets: &[u8]) -> bool {
        if !self.write_out(rt) {
            return false;
        }
        if octets.len() > self.room_left() {
            return write_front(rt, octets) == octets.len();
        }
        self.append(octets);
        true
    }
}

/// Writes octets to standard output, and answers how many: all, unless a write failed.
fn write_front<R: Print>(rt: &R, octets: &[u8]) -> usize
    ensures { result ≤ length octets.now }
{
    let mut count = 0;
    'pieces: while count < octets.len() {
        match rt.write_some(&octets[count..]) {
            Ok(0) | Err(_) => return count,
            Ok(written) => count += written,
        }
    }
    count
}
