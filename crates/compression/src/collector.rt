ghost use Rattle.std.specs.{Int.int_max, Prelude.{IsFalse, IsNone, IsSomeAnd, IsTrue, List, None, [], length, pos}};
ghost use Rattle.std.specs.Prelude.{◌++◌, ◌-ℤ◌, ◌<ℤ◌, ◌<◌, ◌^◌, ◌↔◌, ◌∷◌, ◌≡◌, ◌≢◌, ◌≤ℤ◌, ◌≤◌, ◌⊎◌, All, IfSome};

use crate::collection::Collection;
use crate::waiting::WaitingCollections;
use crate::{Compressed, Taken};
use std::marker::Model;
use tte_units::{READING_LIMIT, Units};

/// Collects the permanence points of one compression master into clusters.
///
/// A collection opens at its first point `p` and takes points up to and with `p + ow`, the
/// observation window. Where those are of two masters or more, it takes points up to and with
/// `p + 2 * ow`. The next point opens another. A point of another cycle than the opener's is
/// dropped, and of each master the first point counts. The collection is emitted at the reading
/// `p + 2 * ow + calc + middle`. Readings are in units of 2^-16 ns.
///
/// No call takes memory: at most five collections wait at once.
#[derive(Drop)]
pub struct Collector {
    ow: Units,
    calc: Units,
    // The next point may not lie before this reading.
    earliest: Units,
    waiting: WaitingCollections,
}

impl Model for Collector {
    ghost use Rattle.compression.specs.{Collecting.Collecting, Row.IsSound};

    ghost Value = { Collecting };

    ghost view = { λ c. record { ow = c.ow.0; calc = c.calc.0; earliest = c.earliest.0; waiting = c.waiting } };

    ghost invariant = { λ c. IsSound (record {
      ow = c.ow.0;
      calc = c.calc.0;
      earliest = c.earliest.0;
      waiting = c.waiting;
    }) };
}

const LEAST_READING: Units = Units(-(READING_LIMIT as i64));

impl Collector {
    ghost use Rattle.compression.specs.{Clusters.{AreClusters, Cluster, Point, point_at}, Stands.StandsForPoints};
    ghost use Rattle.compression.specs.{Collecting.{emissions, fresh, with_joined, with_opened}, Emission.compressed};
    ghost use Rattle.{compression.specs.Least.IsLeast, tte_units.specs.Reading.greatest_reading};
    ghost use Rattle.compression.specs.{Role.{has_point_of, open_at, role}, declared.compressed.Compressed.Compressed};

    /// A collector without points.
    ///
    /// `ow`, the observation window, is at most 2^40; `calc`, the time to calculate, is from 1 to
    /// `ow`.
    pub fn new(ow: Units, calc: Units) -> Collector
        requires some { pos 1 ≤ℤ calc.0 }
        requires short { calc.0 ≤ℤ ow.0 }
        requires small { ow.0 ≤ℤ pos (2 ^ 40) }
        ensures value { result ≡ fresh ow.0 calc.0 }
        ensures stands { StandsForPoints result [] [] }
    {
        Collector {
            ow,
            calc,
            earliest: LEAST_READING,
            waiting: WaitingCollections::new(),
        }
    }

    /// Takes the permanence point of a master's frame, with the frame's cycle.
    ///
    /// Readings do not fall, none is less than the `at` of an earlier `emit`, and `due` is None or
    /// greater than `reading - ow`. The master is below 32. The open collection has a point of this
    /// master or points of fewer than eight masters. At most five collections wait after it.
    pub fn point(&mut self, reading: Units, master: u32, cycle: u32) -> Taken
        requires order { self.old.earliest ≤ℤ reading.0 }
        requires high { reading.0 ≤ℤ greatest_reading }
        requires master { master < 32 }

        // Each emission reading that waits is later than the reading less the window.
        requires due { All (λ at. (reading.0 -ℤ self.old.ow) <ℤ at) (emissions self.old) }
        requires room { IfSome (open_at self.old.waiting reading.0)
            (λ c. IsTrue (has_point_of c master) ⊎ (length c.points < 8)) }

        ensures opened { (result ≡ Taken.Opened) ↔ IsNone (open_at self.old.waiting reading.0) }
        ensures joined { (result ≡ Taken.Joined) ↔ IsSomeAnd (open_at self.old.waiting reading.0)
            (λ c. (c.cycle ≡ cycle) × IsFalse (has_point_of c master)) }
        ensures repeat { (result ≡ Taken.Repeat) ↔ IsSomeAnd (open_at self.old.waiting reading.0)
            (λ c. (c.cycle ≡ cycle) × IsTrue (has_point_of c master)) }
        ensures other_cycle { (result ≡ Taken.OtherCycle) ↔ IsSomeAnd (open_at self.old.waiting reading.0)
            (λ c. c.cycle ≢ cycle) }

        ensures opens { result ≡ Taken.Opened → self.new ≡ with_opened self.old (point_at reading.0 master cycle) }
        ensures joins { result ≡ Taken.Joined → self.new ≡ with_joined self.old (point_at reading.0 master cycle) }
        ensures ignores { (result ≡ Taken.Repeat) ⊎ (result ≡ Taken.OtherCycle) → self.new ≡ self.old }

        // What it answers is the point's role by the clusters of all points before it.
        ensures role { (points : List Point) (emitted : List Compressed) (clusters : List Cluster)
            → StandsForPoints self.old points emitted → AreClusters self.old.ow points clusters
            → result ≡ role clusters (point_at reading.0 master cycle) }
        ensures few { length self.new.waiting ≤ 5 }
        ensures stands { (points : List Point) (emitted : List Compressed) → StandsForPoints self.old points emitted
            → StandsForPoints self.new (points ++ point_at reading.0 master cycle ∷ []) emitted }
    {
        let taken = self.waiting.offer(self.ow, reading, master, cycle);
        match taken {
            Taken::Opened => self.open(reading, master, cycle),
            Taken::Joined => self.earliest = reading,
            Taken::Repeat | Taken::OtherCycle => {}
        }
        taken
    }

    // Opens a collection, where none is open.
    fn open(&mut self, reading: Units, master: u32, cycle: u32)
        requires order { self.old.earliest ≤ℤ reading.0 }
        requires high { reading.0 ≤ℤ greatest_reading }
        requires master { master < 32 }

        // Each emission reading that waits is later than the reading less the window.
        requires due { All (λ at. (reading.0 -ℤ self.old.ow) <ℤ at) (emissions self.old) }
        requires none { open_at self.old.waiting reading.0 ≡ None }
        ensures value { self.new ≡ with_opened self.old (point_at reading.0 master cycle) }
        ensures few { length self.new.waiting ≤ 5 }
    {
        let collection = Collection::open(self.ow, reading, master, cycle);
        self.waiting.push(collection);
        self.earliest = reading;
    }

    /// The least emission reading of the collections that wait, the open one included, by the
    /// points so far. It is None exactly where none waits.
    pub fn due(&self) -> Option<Units>
        ensures none { IsNone result ↔ (self.now.waiting ≡ []) }
        ensures least { IfSome result (λ at. IsLeast at.0 (emissions self.now)) }
    {
        let first = self.waiting.first()?;
        Some(first.emission(self.ow, self.calc))
    }

    /// Takes out the collection that is due, and gives what is sent for it. One must wait.
    /// No later point may lie before its emission reading.
    pub fn emit(&mut self) -> Compressed
        requires { self.old.waiting ≢ [] }
        ensures due { IsLeast result.at.0 (emissions self.old) }
        ensures first { (c : Cluster) × (self.old.waiting ≡ c ∷ self.new.waiting)
            × (result ≡ compressed self.old.ow self.old.calc c) }
        ensures kept { self.new ≡ record self.old {
          earliest = int_max self.old.earliest result.at.0;
          waiting = self.new.waiting;
        } }
        ensures stands { (points : List Point) (emitted : List Compressed) → StandsForPoints self.old points emitted
            → StandsForPoints self.new points (emitted ++ result ∷ []) }
    {
        let first = self.waiting.remove_first();
        let compressed = first.compressed(self.ow, self.calc);
        self.earliest = Units(self.earliest.0.max(compressed.at.0));
        compressed
    }

    /// Forgets all points.
    pub fn clear(&mut self)
        ensures value { self.new ≡ fresh self.old.ow self.old.calc }
        ensures stands { StandsForPoints self.new [] [] }
    {
        *self = Collector::new(self.ow, self.calc);
    }
}
