ghost use Rattle.std.specs.{List.last_or, Prelude.pos};
ghost use Rattle.std.specs.Prelude.{◌++◌, ◌<◌, ◌^◌, ◌∷◌, ◌≡◌, ◌≢◌, ◌≤ℤ◌, IfSome, List, MatchOption, None, [], length};

use crate::Taken;
use crate::collection::Collection;
use arrayvec::ArrayVec;
use std::marker::Model;
use tte_units::Units;

/// The collections that are not emitted yet, in the order of their openings. There are at most
/// five, and only the last can be open.
#[derive(Drop)]
pub(crate) struct WaitingCollections {
    collections: ArrayVec<Collection, 5>,
}

impl Model for WaitingCollections {
    ghost use Rattle.std.specs.Prelude.{List};
    ghost use Rattle.compression.specs.Clusters.{Cluster};

    ghost Value = { List Cluster };

    ghost view = { λ w. w.collections.items };
}

impl WaitingCollections {
    ghost use Rattle.compression.specs.{Clusters.{Cluster, point_at}, Collection.{CanTake, joined}, Role.role};

    /// No collections.
    pub(crate) fn new() -> WaitingCollections
        ensures { result ≡ [] }
    {
        WaitingCollections {
            collections: ArrayVec::new(),
        }
    }

    /// Appends the collection that opens next.
    pub(crate) fn push(&mut self, collection: Collection)
        requires { length self.old < 5 }
        ensures { self.new ≡ self.old ++ collection ∷ [] }
    {
        self.collections.push(collection);
    }

    /// Gives a point to the collection that is open at its reading. Where none is, it is for the
    /// caller to open one.
    pub(crate) fn offer(&mut self, ow: Units, reading: Units, master: u32, cycle: u32) -> Taken
        requires master { master < 32 }
        requires window { pos 0 ≤ℤ ow.0 × ow.0 ≤ℤ pos (2 ^ 40) }
        requires last { IfSome (last_or None self.old) (λ c. reading.0 ≤ℤ c.end → CanTake c reading.0 master) }
        ensures role { result ≡ role self.old (point_at reading.0 master cycle) }
        ensures joined { result ≡ Taken.Joined → (front : List Cluster) (c : Cluster) → self.old ≡ front ++ c ∷ []
            → self.new ≡ front ++ joined ow.0 c reading.0 master ∷ [] }
        ensures ignored { result ≢ Taken.Joined → self.new ≡ self.old }
    {
        let Some(last) = self.collections.last_mut() else {
            return Taken::Opened;
        };
        if last.end().0 < reading.0 {
            return Taken::Opened;
        }
        last.take(ow, reading, master, cycle)
    }

    /// The collection that opened first, if there is one.
    pub(crate) fn first(&self) -> Option<&Collection>
        ensures { MatchOption result (self.now ≡ []) (λ c. (rest : List Cluster) × (self.now ≡ c.now ∷ rest)) }
    {
        self.collections.first()
    }

    /// Takes the collection that opened first.
    pub(crate) fn remove_first(&mut self) -> Collection
        requires { 0 < length self.old }
        ensures { self.old ≡ result ∷ self.new }
    {
        self.collections.remove(0)
    }
}
