ghost use Rattle.std.specs.Prelude.{◌≡◌, ◌<◌, ◌≤◌, ◌^◌, ◌↔◌, pos, ◌<ℤ◌, ◌≤ℤ◌, [], ◌∷◌, ◌++◌, length, IsTrue};
ghost use Rattle.std.specs.Bool.{OnTrue, OnFalse};
ghost use Rattle.compression.specs.Ascent.{MayFollow, spread, offset_at};

use arrayvec::ArrayVec;
use std::marker::Model;
use tte_units::Units;

/// At most eight permanence points in rising order, in units of 2^-16 ns.
#[derive(Drop)]
pub struct Points {
    numbers: ArrayVec<i64, 8>,
}

impl Model for Points {
    ghost use Rattle.std.specs.Prelude.{List, ℤ, ◌≤◌, length};
    ghost use Rattle.compression.specs.Ascent.{IsAscending};

    ghost Value = { List ℤ };

    ghost view = { λ p. p.numbers.items };

    ghost invariant = { λ p. (length p.numbers.items ≤ 8) × IsAscending p.numbers.items };
}

impl Points {
    /// No points.
    pub fn new() -> Points
        ensures { result ≡ [] }
    {
        Points {
            numbers: ArrayVec::new(),
        }
    }

    /// Appends a point. It is refused exactly where eight are there, or where it is below the last.
    pub fn push(&mut self, p: Units) -> bool
        ensures taken { IsTrue result ↔ ((length self.old < 8) × MayFollow self.old p.0) }
        ensures appended { OnTrue result (self.new ≡ self.old ++ p.0 ∷ []) }
        ensures unchanged { OnFalse result (self.new ≡ self.old) }
    {
        if self.is_full() || !self.may_end_in(p) {
            return false;
        }
        self.append(p);
        true
    }

    /// Appends a point for which there is room and which is not below the last.
    pub(crate) fn append(&mut self, p: Units)
        requires room { length self.old < 8 }
        requires order { MayFollow self.old p.0 }
        ensures { self.new ≡ self.old ++ p.0 ∷ [] }
    {
        self.numbers.push(p.0);
    }

    /// How many points are there.
    pub(crate) fn len(&self) -> usize
        ensures value { result ≡ length self.now }
        ensures within { result ≤ 8 }
    {
        self.numbers.len()
    }

    /// How far the point at `i` is above the first.
    pub(crate) fn offset(&self, i: usize) -> Units
        requires inside { i < length self.now }
        requires near { spread self.now <ℤ pos (2 ^ 60) }
        ensures value { result.0 ≡ offset_at self.now i }
        ensures low { pos 0 ≤ℤ result.0 }
        ensures high { result.0 ≤ℤ spread self.now }
    {
        let first = self.numbers[0];
        let point = self.numbers[i];
        Units(point - first)
    }

    fn is_full(&self) -> bool
        ensures full { IsTrue result ↔ (length self.now ≡ 8) }
        ensures within { length self.now ≤ 8 }
    {
        self.numbers.is_full()
    }

    // Whether the point is not below the last.
    fn may_end_in(&self, p: Units) -> bool
        ensures { IsTrue result ↔ MayFollow self.now p.0 }
    {
        match self.numbers.last() {
            Some(last) => *last <= p.0,
            None => true,
        }
    }
}
