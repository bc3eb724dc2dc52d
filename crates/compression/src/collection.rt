ghost use Rattle.std.specs.Prelude.{◌≡◌, ◌≢◌, ◌+◌, ◌<◌, ◌^◌, pos, ◌≤ℤ◌, Some, length};

use crate::{Compressed, Points, Taken, middle};
use std::marker::Model;
use tte_units::Units;
use tte_units::frames::Members;

/// A collection: the points that count since it opened, and where it ends by them.
#[derive(Drop)]
pub(crate) struct Collection {
    opened: Units,
    end: Units,
    cycle: u32,
    points: Points,
    members: Members,
}

impl Model for Collection {
    ghost use Rattle.compression.specs.Clusters.{Cluster};

    ghost Value = { Cluster };

    ghost view = { λ c. record {
      opened = c.opened.0;
      end = c.end.0;
      cycle = c.cycle;
      points = c.points;
      members = c.members.0;
    } };
}

impl Default for Collection {
    fn default() -> Self {
        Collection {
            opened: Units(0),
            end: Units(0),
            cycle: 0,
            points: Points::new(),
            members: Members(0),
        }
    }
}

impl Collection {
    ghost use Rattle.tte_units.specs.Reading.{greatest_reading, least_reading};
    ghost use Rattle.compression.specs.{Ascent.MayFollow, Row.IsCollection};
    ghost use Rattle.compression.specs.{Clusters.point_at, Collection.{CanTake, joined, joined_end, opening}};
    ghost use Rattle.compression.specs.{Emission.{compressed, emission}, Role.{has_point_of, role_in}};

    /// The collection that a point opens.
    pub(crate) fn open(ow: Units, reading: Units, master: u32, cycle: u32) -> Collection
        requires master { master < 32 }
        requires window { pos 0 ≤ℤ ow.0 × ow.0 ≤ℤ pos (2 ^ 40) }
        requires low { least_reading ≤ℤ reading.0 }
        requires high { reading.0 ≤ℤ greatest_reading }
        ensures { result ≡ opening ow.0 (point_at reading.0 master cycle) }
    {
        let mut points = Points::new();
        points.append(reading);
        Collection {
            opened: reading,
            end: Units(reading.0 + ow.0),
            cycle,
            points,
            members: Members(1 << master),
        }
    }

    /// Takes a point that is not beyond the end. It joins where it is the first of its master.
    pub(crate) fn take(&mut self, ow: Units, reading: Units, master: u32, cycle: u32) -> Taken
        requires master { master < 32 }
        requires window { pos 0 ≤ℤ ow.0 × ow.0 ≤ℤ pos (2 ^ 40) }
        requires able { CanTake self.old reading.0 master }
        ensures role { result ≡ role_in (Some self.old) (point_at reading.0 master cycle) }
        ensures joined { result ≡ Taken.Joined → self.new ≡ joined ow.0 self.old reading.0 master }
        ensures ignored { result ≢ Taken.Joined → self.new ≡ self.old }
    {
        if cycle != self.cycle {
            return Taken::OtherCycle;
        }
        if self.has(master) {
            return Taken::Repeat;
        }
        self.join(ow, reading, master);
        Taken::Joined
    }

    /// The reading at which it is emitted, by its points so far.
    pub(crate) fn emission(&self, ow: Units, calc: Units) -> Units
        requires window { pos 0 ≤ℤ ow.0 × ow.0 ≤ℤ pos (2 ^ 40) }
        requires time { pos 0 ≤ℤ calc.0 × calc.0 ≤ℤ pos (2 ^ 40) }
        requires collection { IsCollection ow.0 self.now }
        ensures { result.0 ≡ emission ow.0 calc.0 self.now }
    {
        let middle = middle(&self.points);
        Units(self.opened.0 + 2 * ow.0 + calc.0 + middle.0)
    }

    /// What is emitted for it, by its points so far.
    pub(crate) fn compressed(&self, ow: Units, calc: Units) -> Compressed
        requires window { pos 0 ≤ℤ ow.0 × ow.0 ≤ℤ pos (2 ^ 40) }
        requires time { pos 0 ≤ℤ calc.0 × calc.0 ≤ℤ pos (2 ^ 40) }
        requires collection { IsCollection ow.0 self.now }
        ensures { result ≡ compressed ow.0 calc.0 self.now }
    {
        Compressed {
            opened: self.opened,
            at: self.emission(ow, calc),
            cycle: self.cycle,
            members: self.members,
        }
    }

    fn has(&self, master: u32) -> bool
        requires { master < 32 }
        ensures { result ≡ has_point_of self.now master }
    {
        self.members.0 & (1 << master) != 0
    }

    fn join(&mut self, ow: Units, reading: Units, master: u32)
        requires master { master < 32 }
        requires window { pos 0 ≤ℤ ow.0 × ow.0 ≤ℤ pos (2 ^ 40) }
        requires low { least_reading ≤ℤ self.old.opened }
        requires high { self.old.opened ≤ℤ greatest_reading }
        requires room { length self.old.points < 8 }
        requires order { MayFollow self.old.points reading.0 }
        ensures { self.new ≡ joined ow.0 self.old reading.0 master }
    {
        self.end = self.end_with(ow, reading);
        self.points.append(reading);
        self.members = Members(self.members.0 | 1 << master);
    }

    // Where it ends with the point of a further master.
    fn end_with(&self, ow: Units, reading: Units) -> Units
        requires window { pos 0 ≤ℤ ow.0 × ow.0 ≤ℤ pos (2 ^ 40) }
        requires low { least_reading ≤ℤ self.now.opened }
        requires high { self.now.opened ≤ℤ greatest_reading }
        ensures { result.0 ≡ joined_end ow.0 self.now reading.0 }
    {
        if reading.0 <= self.opened.0 + ow.0 {
            Units(self.opened.0 + 2 * ow.0)
        } else {
            self.end
        }
    }

    /// The last reading at which it is open.
    pub(crate) fn end(&self) -> Units
        ensures { result.0 ≡ self.now.end }
    {
        self.end
    }
}
