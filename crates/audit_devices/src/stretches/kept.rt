ghost use Rattle.std.specs.Prelude.{◌++◌, ◌∷◌, ◌≡◌, ◌≤ℤ◌, IfOk, List, OnOk, Some, [], pos};
ghost use Rattle.{audit_devices.specs.Effects.carried_by, run_law.specs.records.{Order.AllBefore, Ranks.place_of}};
ghost use Rattle.audit_devices.specs.{Keeping.records_before, stretches.Changes.{change_by, collector_in}};
ghost use Rattle.audit_devices.specs.stretches.{Keeping.Keeps, Points.{HasPoints, MayBring, points_with}};
ghost use Rattle.{audit_law.specs.collections.Gathered.{Gathers, IsLatest}, run_law.specs.records.Happenings.Happening};
ghost use Rattle.{compression.specs.Clusters.Point, net_plan.specs.Ranges.IsInRange};
ghost use Rattle.{net_plan.specs.declared.ids.DeviceId.DeviceId, run_law.specs.control.Collections.points_of};
ghost use Rattle.net_plan.specs.declared.network.Network as networks;

use crate::Carried;
use crate::stretches::change::CollectionChange;
use audit_law::collections::{CollectionHistory, Gathering};
use net_plan::Network;
use run_law::plain::Place;
use std::alloc::{AllocError, Global};
use std::marker::Model;

/// The gathering from a place on.
#[derive(Drop)]
pub(crate) struct Entry {
    pub(crate) place: Place,
    pub(crate) gathering: Gathering,
}

/// The stretches of one compression master.
#[derive(Drop)]
pub(crate) struct Kept {
    pub(crate) collections: CollectionHistory,
    /// The gathering of the present stretch.
    pub(crate) latest: Gathering,
    /// What each of its records began.
    pub(crate) entries: Vec<Entry>,
}

impl Model for Kept {
    ghost use Rattle.{audit_devices.specs.stretches.Keeping.Stretches, audit_law.specs.collections.Gathered.IsLatest};

    ghost Value = { Stretches };

    ghost view = { λ k. record { collections = k.collections; latest = k.latest; entries = k.entries.items } };

    ghost invariant = { λ k. IsLatest k.collections k.latest };
}

impl Kept {
    /// Those of a device that has no records.
    pub(crate) fn new(alloc: Global, network: &Network) -> Kept
        requires { IsInRange network.now }
        ensures { (device : DeviceId) → Keeps network.now [] device result }
    {
        Kept {
            collections: CollectionHistory::new(alloc, network.precision, network.calc),
            latest: Gathering::none(),
            entries: Vec::new(alloc),
        }
    }

    /// Goes on by a record of the device, which stands behind all so far.
    pub(crate) fn take(
        &mut self,
        place: Place,
        change: CollectionChange,
        carried: Carried,
    ) -> Result<(), AllocError>
        ensures { (network : networks.Network) (hs : List Happening) (h : Happening) (device : DeviceId)
            → collector_in h.note.body ≡ Some device → change_by h.note.body ≡ Some change → place ≡ place_of h
            → carried ≡ carried_by h → AllBefore place_of hs (place_of h) → MayBring (points_of hs device) change
            → Keeps network hs device self.old → OnOk result (Keeps network (hs ++ h ∷ []) device self.new) }
    {
        let gathering = self.next(change, carried)?;
        self.entries.push(Entry { place, gathering })?;
        self.latest = gathering;
        Ok(())
    }

    // The gathering behind a change. It is the latest of the collections, and for now there is none in its place.
    fn next(&mut self, change: CollectionChange, carried: Carried) -> Result<Gathering, AllocError>
        ensures latest { IfOk result (λ g. IsLatest self.new.collections g) }
        ensures gathers { IfOk result (λ g. (points : List Point) → Gathers self.old.collections self.old.latest points
            → MayBring points change → Gathers self.new.collections g (points_with points change carried)) }
        ensures kept { (other : _) (points : List Point) → Gathers self.old.collections other points
            → Gathers self.new.collections other points }
        ensures same { (self.new.collections.ow ≡ self.old.collections.ow)
            × (self.new.collections.calc ≡ self.old.collections.calc) }
        ensures entries { self.new.entries ≡ self.old.entries }
    {
        let latest = self.latest;
        self.latest = Gathering::none();
        match change {
            CollectionChange::Ends => Ok(Gathering::none()),
            CollectionChange::Gives(point) => {
                let master = carried.members.0.trailing_zeros();
                let (_, gathering) = self
                    .collections
                    .point(&latest, point.0, master, carried.cycle)?;
                Ok(gathering)
            }
        }
    }

    /// The gathering of the stretch before a place.
    pub(crate) fn before(&self, place: &Place) -> Gathering
        ensures { (network : networks.Network) (hs : List Happening) (device : DeviceId)
            → Keeps network hs device self.now
            → HasPoints network (points_of (records_before place.now hs) device) self.now.collections result }
    {
        let count = self
            .entries
            .partition_point(|entry| entry.place.is_before(place));
        let (front, _) = self.entries.split_at(count);
        match front.last() {
            Some(entry) => entry.gathering,
            None => Gathering::none(),
        }
    }
}
