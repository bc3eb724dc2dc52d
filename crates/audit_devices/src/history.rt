ghost use Rattle.std.specs.List.Sorted.{IsPartitionPoint};
ghost use Rattle.std.specs.Prelude.{◌+◌, ◌++◌, ◌<◌, ◌∷◌, ◌≡◌, ◌≤◌, IfSome, List, OnOk, [], false, if◌then◌else◌, is_ok};
ghost use Rattle.std.specs.Prelude.{length, nat_le, option_map, slice_get, take, true};
ghost use Rattle.net_plan.specs.Ranges.{IsInRange};

use crate::effect::shows_nothing;
use crate::{Carried, Readings, Shown};
use net_plan::{DeviceId, Network};
use run_law::NoteBody;
use run_law::plain::Place;
use std::alloc::{AllocError, Global};

/// What the records up to that of the place show of a device.
#[derive(Drop)]
pub(crate) struct Entry {
    pub(crate) place: Place,
    pub(crate) shown: Shown,
}

/// What is shown of a device: at first, and from each of its records on.
#[derive(Drop)]
pub(crate) struct History {
    first: Shown,
    entries: Vec<Entry>,
}

impl History {
    ghost use Rattle.audit_devices.specs.{Following.IsMet, Keeping.{IsInOrder, Keeps, last_shown, latest_of, shown_before, time_at}};
    ghost use Rattle.{audit_devices.specs.Lasting.Lasts, run_law.specs.records.Ranks.place_of};
    ghost use Rattle.run_law.specs.{records.{Happenings.Happening, Order.AllBefore}, scenario.Scenarios.Scenario};

    /// Nothing but what is shown at first.
    pub(crate) fn new(alloc: Global, first: Shown) -> History
        ensures first { result.first ≡ first }
        ensures none { result.entries.items ≡ [] }
    {
        History {
            first,
            entries: Vec::new(alloc),
        }
    }

    /// From this place on this is shown.
    pub(crate) fn push(&mut self, place: Place, shown: Shown) -> Result<(), AllocError>
        ensures first { self.new.first ≡ self.old.first }
        ensures entries { self.new.entries.items ≡ (if is_ok result
            then self.old.entries.items ++ record { place = place; shown = shown } ∷ [] else self.old.entries.items) }
    {
        self.entries.push(Entry { place, shown })?;
        Ok(())
    }

    /// Goes on by a record of the device, which stands behind all so far.
    pub(crate) fn take(
        &mut self,
        network: &Network,
        device: DeviceId,
        time: u64,
        body: &NoteBody,
        carried: Carried,
        readings: Readings,
    ) -> Result<(), AllocError>
        requires { IsInRange network.now }
        ensures { (s : Scenario) (hs : List Happening) (h : Happening) → s.network ≡ network.now
            → IsMet s device h time body.now carried readings → AllBefore place_of hs (place_of h)
            → Keeps s hs device self.old
            → OnOk result (Keeps s (hs ++ h ∷ []) device self.new) }
    {
        if shows_nothing(network, device, carried, body) {
            return Ok(());
        }
        let shown = self
            .latest()
            .after(network, device, time, body, carried, readings);
        self.push(Place::of(time, carried.members.0, body), shown)
    }

    /// What was shown last.
    pub(crate) fn latest(&self) -> &Shown
        ensures { result.now ≡ latest_of self.now }
    {
        match self.entries.last() {
            Some(entry) => &entry.shown,
            None => &self.first,
        }
    }

    /// What was shown last before the place.
    pub(crate) fn before(&self, place: &Place) -> &Shown
        ensures { IsInOrder self.now → result.now ≡ shown_before place.now self.now }
    {
        // Mostly the record that comes next asks, and all are before it.
        if let Some(last) = self.entries.last() {
            if last.place.is_before(place) {
                return &last.shown;
            }
        }
        self.sought_before(place)
    }

    /// The same, where it may be any.
    fn sought_before(&self, place: &Place) -> &Shown
        ensures { IsInOrder self.now → result.now ≡ shown_before place.now self.now }
    {
        let point = self
            .entries
            .partition_point(|entry| entry.place.is_before(place));
        self.shown_by(point)
    }

    /// What is shown at the times later than this one, and the time of the first entry that is later. Up to then the
    /// same is shown.
    pub(crate) fn after(&self, time: u64) -> (&Shown, Option<u64>)
        ensures shown { IsInOrder self.now → result.0.now ≡ shown_before ((time + 1) ∷ []) self.now }
        ensures later { IsInOrder self.now → IfSome result.1 (λ next. time < next) }
        ensures lasts { IsInOrder self.now → Lasts self.now time result.1 }
    {
        let point = self.count_up_to(time);
        (self.shown_by(point), self.time_behind(point))
    }

    /// How many entries are of times up to this one.
    fn count_up_to(&self, time: u64) -> usize
        ensures bound { result ≤ length self.now.entries.items }
        ensures part { IsInOrder self.now → IsPartitionPoint (λ e. nat_le (time_at e.place) time ≡ true)
            (λ e. nat_le (time_at e.place) time ≡ false) self.now.entries.items result }
    {
        self.entries
            .partition_point(|entry| entry.place.time() <= time)
    }

    /// What so many entries, from the first on, show.
    fn shown_by(&self, count: usize) -> &Shown
        requires { count ≤ length self.now.entries.items }
        ensures { result.now ≡ last_shown self.now.first (take count self.now.entries.items) }
    {
        let (front, _) = self.entries.split_at(count);
        match front.last() {
            Some(entry) => &entry.shown,
            None => &self.first,
        }
    }

    /// The time of the entry behind so many, if there is one.
    fn time_behind(&self, count: usize) -> Option<u64>
        ensures { result ≡ option_map (λ e. time_at e.place) (slice_get self.now.entries.items count) }
    {
        match self.entries.get(count) {
            Some(entry) => Some(entry.place.time()),
            None => None,
        }
    }
}
