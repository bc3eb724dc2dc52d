ghost use Rattle.std.specs.Prelude.{◌≡◌, [], ◌∷◌, ◌++◌, ◌≤◌, ◌<◌, length, MatchResult};
ghost use Rattle.std.specs.List.Sorted.{IsNonDecreasingBy, IsPartitionPoint};
ghost use Rattle.audit_law.specs.events.Settings.{later_than, value_at};

use std::alloc::{AllocError, Global};

/// From a time on, a value that is set.
#[derive(Clone, Copy)]
pub struct Setting<V> {
    pub from: u64,
    pub value: V,
}

/// A value and its changes, in the order of time.
#[derive(Drop)]
pub struct Settings<V> {
    pub(crate) initial: V,
    pub(crate) changes: Vec<Setting<V>>,
}

impl<V: Copy> Settings<V> {
    /// A value that has not changed.
    pub fn new(alloc: Global, initial: V) -> Settings<V>
        ensures initial { result.initial ≡ initial }
        ensures unchanged { result.changes.items ≡ [] }
    {
        Settings {
            initial,
            changes: Vec::new(alloc),
        }
    }

    /// Sets the value from a time on.
    pub fn set(&mut self, from: u64, value: V) -> Result<(), AllocError>
        ensures initial { self.new.initial ≡ self.old.initial }
        ensures changes { MatchResult result
            (λ _. self.new.changes.items ≡ self.old.changes.items ++ record { from = from; value = value } ∷ [])
            (λ _. self.new.changes.items ≡ self.old.changes.items) }
    {
        self.changes.push(Setting { from, value })?;
        Ok(())
    }

    // How many changes there are up to the time.
    fn count_up_to(&self, time: u64) -> usize
        ensures bound { result ≤ length self.now.changes.items }
        ensures part { IsNonDecreasingBy (λ c. c.from) self.now.changes.items
            → IsPartitionPoint (λ c. c.from ≤ time) (λ c. time < c.from) self.now.changes.items result }
    {
        self.changes.partition_point(|change| change.from <= time)
    }

    /// The value at a time.
    pub fn at(&self, time: u64) -> V
        ensures { IsNonDecreasingBy (λ c. c.from) self.now.changes.items
            → result ≡ value_at self.now.initial self.now.changes.items time }
    {
        let count = self.count_up_to(time);
        if count == 0 {
            self.initial
        } else {
            self.changes[count - 1].value
        }
    }

    /// The changes that come later than a time.
    pub fn after(&self, time: u64) -> &[Setting<V>]
        ensures { IsNonDecreasingBy (λ c. c.from) self.now.changes.items
            → result.now ≡ later_than time self.now.changes.items }
    {
        let count = self.count_up_to(time);
        let (_, later) = self.changes.split_at(count);
        later
    }
}
