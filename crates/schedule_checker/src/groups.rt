//! Rows in groups by what they name, so that a rule looks at few of them for each.
ghost use Rattle.std.specs.Prelude.{if◌then◌else◌, ◌++◌, ◌==◌, ◌∷◌, ◌<◌, ◌≡◌, IfOk, List, OnOk, [], length, ℕ};
ghost use Rattle.schedule_tables.specs.declared.entry.Entry.{Entry as EntryValue};
ghost use Rattle.schedule_checker.specs.Groups.{AreGroups, HasRowsBy, HasRowsOf, places_in};

use net_plan::{LinkId, VlId};
use schedule_tables::{Entry, OutOfMemory};
use std::alloc::{AllocError, Global};

/// Places of rows, in groups by a number that each row names.
#[derive(Drop)]
pub struct RowPlaces {
    groups: Vec<Vec<usize>>,
}

impl RowPlaces {
    /// No place.
    fn new(alloc: Global) -> RowPlaces
        ensures { result.groups.items ≡ [] }
    {
        RowPlaces {
            groups: Vec::new(alloc),
        }
    }

    /// Puts one more place into the group of the number.
    fn push(&mut self, alloc: Global, number: u32, place: usize) -> Result<(), AllocError>
        ensures { (other : ℕ) → OnOk result (places_in self.new other
            ≡ (if other == number then places_in self.old other ++ place ∷ [] else places_in self.old other)) }
    {
        self.make_room(alloc, number)?;
        self.groups[number as usize].push(place)?;
        Ok(())
    }

    /// Makes a group of the number, where there is none.
    fn make_room(&mut self, alloc: Global, number: u32) -> Result<(), AllocError>
        ensures same { (other : ℕ) → places_in self.new other ≡ places_in self.old other }
        ensures room { OnOk result (number < length self.new.groups.items) }
    {
        for _ in self.groups.len()..number as usize + 1 {
            self.groups.push(Vec::new(alloc))?;
        }
        Ok(())
    }

    /// The places in the group of the number.
    fn of(&self, number: u32) -> &[usize]
        ensures { result.now ≡ places_in self.now number }
    {
        match self.groups.as_slice().get(number as usize) {
            Some(group) => group.as_slice(),
            None => &[],
        }
    }
}

/// The places of the rows of each virtual link, and of those that go by each link.
#[derive(Drop)]
pub struct Groups {
    by_vl: RowPlaces,
    by_link: RowPlaces,
}

/// The groups of the rows whose entries these are.
pub fn groups_of(alloc: Global, entries: &[Entry]) -> Result<Groups, OutOfMemory>
    ensures { IfOk result (AreGroups entries.now) }
{
    let mut by_vl = RowPlaces::new(alloc);
    let mut by_link = RowPlaces::new(alloc);
    for place in 0..entries.len() {
        let row = &entries[place].row;
        by_vl.push(alloc, row.vl.0, place)?;
        by_link.push(alloc, row.link.0, place)?;
    }
    Ok(Groups { by_vl, by_link })
}

impl Groups {
    /// Places of rows, and those of all rows of the virtual link among them.
    pub(crate) fn of_vl(&self, vl: VlId) -> &[usize]
        ensures { (entries : List EntryValue) → AreGroups entries self.now → HasRowsOf entries vl result.now }
    {
        self.by_vl.of(vl.0)
    }

    /// Places of rows, and those of all rows that go by the link among them.
    pub(crate) fn by_link(&self, link: LinkId) -> &[usize]
        ensures { (entries : List EntryValue) → AreGroups entries self.now → HasRowsBy entries link result.now }
    {
        self.by_link.of(link.0)
    }
}
