ghost use Rattle.std.specs.List.Sorted.{IsPartitionPoint};
ghost use Rattle.std.specs.Prelude.{◌++◌, ◌↔◌, ◌∷◌, ◌≡◌, ◌≤◌, IsTrue, List, OnErr, OnOk, [], false, length, true, ℕ};
ghost use Rattle.run_law.specs.records.{Happenings.Happening, Order.{AllBefore, IsIn, is_before}, Ranks.place_of};
ghost use Rattle.audit_sweep.specs.records.places.Placing.{AreAscending, ArePlacesOf, HasRecordAt};

use run_law::plain::Place;
use std::alloc::{AllocError, Global};
use std::marker::Model;

/// How many records behind another are looked at first.
const NEAR: usize = 16;

/// Of so many records the time of the first is marked.
const BLOCK: usize = 16;

/// The places of records that are in order, and marks of their times, by which a place is sought near its own.
#[derive(Drop)]
pub struct Places {
    places: Vec<Place>,
    marks: Vec<u64>,
}

impl Model for Places {
    ghost use Rattle.std.specs.Prelude.{ℕ, List};

    ghost Value = { List (List ℕ) };

    ghost view = { λ p. p.places.items };
}

impl Places {
    /// Those of no records.
    pub fn new(alloc: Global) -> Places
        ensures { ArePlacesOf [] result }
    {
        Places {
            places: Vec::new(alloc),
            marks: Vec::new(alloc),
        }
    }

    /// Is the place behind those of all the records?
    pub fn are_before(&self, place: &Place) -> bool
        ensures { (hs : List Happening) → ArePlacesOf hs self.now
            → IsTrue result ↔ AllBefore place_of hs place.now }
    {
        match self.places.last() {
            Some(last) => last.is_before(place),
            None => true,
        }
    }

    /// Adds that of a record of the time that stands behind all of them. Where memory runs out no place is added.
    pub fn push(&mut self, time: u64, place: Place) -> Result<(), AllocError>
        ensures added { OnOk result ((hs : List Happening) (h : Happening) → ArePlacesOf hs self.old
            → place_of h ≡ place → AllBefore place_of hs place → ArePlacesOf (hs ++ h ∷ []) self.new) }
        ensures unchanged { OnErr result (self.new ≡ self.old) }
    {
        mark(&mut self.marks, self.places.len(), time)?;
        self.places.push(place)?;
        Ok(())
    }

    /// Does a record stand at the place, which is of this time? It is sought first among those of its time.
    pub fn has(&self, time: u64, place: &Place) -> bool
        ensures { (hs : List Happening) → ArePlacesOf hs self.now → IsTrue result ↔ HasRecordAt hs place.now }
    {
        let (from, to) = self.marked(time);
        if is_among(self.between(from, to), place) {
            return true;
        }
        self.is_there(place)
    }

    /// The same, where it is sought first among the records just behind that of this number.
    pub fn has_behind(&self, number: u64, time: u64, place: &Place) -> bool
        ensures { (hs : List Happening) → ArePlacesOf hs self.now → IsTrue result ↔ HasRecordAt hs place.now }
    {
        let from = number as usize;
        if is_among(self.between(from, from.saturating_add(NEAR)), place) {
            return true;
        }
        self.has(time, place)
    }

    // Between which numbers of places those of the time stand, by the marks.
    fn marked(&self, time: u64) -> (usize, usize) {
        let from = self.marks.partition_point(|mark| *mark < time);
        let to = self.marks.partition_point(|mark| *mark <= time);
        (
            from.saturating_sub(1).saturating_mul(BLOCK),
            to.saturating_mul(BLOCK),
        )
    }

    // The places from this number on, and before the other.
    fn between(&self, from: usize, to: usize) -> &[Place]
        ensures { (place : List ℕ) → IsIn place result.now → IsIn place self.now }
    {
        let (before, _) = self.places.split_at(self.places.len().min(to));
        let (_, between) = before.split_at(before.len().min(from));
        between
    }

    // Does a record stand at the place? It is sought among all.
    fn is_there(&self, place: &Place) -> bool
        ensures { (hs : List Happening) → ArePlacesOf hs self.now → IsTrue result ↔ HasRecordAt hs place.now }
    {
        let count = self.count_before(place);
        match self.places.get(count) {
            Some(found) => found.is_same(place),
            None => false,
        }
    }

    // How many of them are before the place.
    fn count_before(&self, place: &Place) -> usize
        ensures bound { result ≤ length self.now }
        ensures part { AreAscending self.now
            → IsPartitionPoint (λ p. is_before p place.now ≡ true) (λ p. is_before p place.now
            ≡ false) self.now result }
    {
        self.places.partition_point(|found| found.is_before(place))
    }
}

// Marks the time of the first record of a block, where so many records stand before it.
fn mark(marks: &mut Vec<u64>, count: usize, time: u64) -> Result<(), AllocError> {
    if count % BLOCK == 0 {
        marks.push(time)?;
    }
    Ok(())
}

// Is the place one of these? It may be missed where they are in no order.
fn is_among(places: &[Place], place: &Place) -> bool
    ensures { IsTrue result → IsIn place.now places.now }
{
    let count = places.partition_point(|found| found.is_before(place));
    match places.get(count) {
        Some(found) => found.is_same(place),
        None => false,
    }
}
