ghost use Rattle.std.specs.Prelude.{◌++◌, ◌<◌, ◌∷◌, ◌≡◌, IfOk, List, OnOk, Some, [], length, slice_get, true};
ghost use Rattle.audit_devices.specs.{Keeping.records_before, declared.stretches.kept.Entry.Entry};
ghost use Rattle.audit_devices.specs.stretches.{Keeping.{IsRecord, Stretches}, Points.{HasPoints, MayStand}};
ghost use Rattle.audit_devices.specs.stretches.Standing.{IsBehind, Stands, device_count, kept_of};
ghost use Rattle.net_plan.specs.Ranges.{IsInRange};
ghost use Rattle.run_law.specs.{control.{Collections.points_of, Permanence.before_permanence}, scenario.Devices.is_cm};
ghost use Rattle.run_law.specs.records.{Happenings.Happening, Order.AllBefore, Ranks.place_of};
ghost use Rattle.net_plan.specs.declared.network.Network as networks;

use crate::Carried;
use crate::stretches::Stretch;
use crate::stretches::change::{change_by, collector_in};
use crate::stretches::kept::Kept;
use device_rules::is_cm;
use net_plan::{DeviceId, LinkId, Network};
use run_law::NoteBody;
use run_law::plain::Place;
use std::alloc::{AllocError, Global};
use tte_units::Units;
use tte_units::frames::Pcf;

/// The stretches of all compression masters of a network.
#[derive(Drop)]
pub struct StretchHistory {
    kept: Vec<Kept>,
}

impl StretchHistory {
    /// Those of no records.
    pub fn new(alloc: Global, network: &Network) -> Result<StretchHistory, AllocError>
        requires { IsInRange network.now }
        ensures stands { IfOk result (Stands network.now []) }
        ensures count { IfOk result (λ history. device_count history ≡ length network.now.device) }
    {
        let mut kept = Vec::new(alloc);
        for _ in network.device.as_slice() {
            kept.push(Kept::new(alloc, network))?;
        }
        Ok(StretchHistory { kept })
    }

    /// Goes on by the next record, whose frame says this.
    pub fn push(
        &mut self,
        network: &Network,
        time: u64,
        body: &NoteBody,
        carried: Carried,
    ) -> Result<(), AllocError>
        ensures stands { (hs : List Happening) (h : Happening) → IsRecord h time body.now carried
            → AllBefore place_of hs (place_of h) → MayStand network.now hs h → Stands network.now hs self.old
            → OnOk result (Stands network.now (hs ++ h ∷ []) self.new) }
        ensures count { device_count self.new ≡ device_count self.old }
    {
        let Some(change) = change_by(body) else {
            return Ok(());
        };
        let Some(device) = collector_in(body) else {
            return Ok(());
        };
        let index = device.0 as usize;
        if index >= self.kept.len() || !is_cm(network, device) {
            return Ok(());
        }
        self.kept[index].take(Place::of(time, carried.members.0, body), change, carried)
    }

    /// The stretch of a compression master before a place.
    pub fn before(&self, device: DeviceId, place: &Place) -> Stretch<'_>
        requires { device.0 < device_count self.now }
        ensures { (network : networks.Network) (hs : List Happening) → Stands network hs self.now
            → is_cm network device ≡ true
            → HasPoints network (points_of (records_before place.now hs) device)
            result.collections.now result.gathering }
    {
        let kept = &self.kept[device.0 as usize];
        Stretch {
            collections: &kept.collections,
            gathering: kept.before(place),
        }
    }

    /// The stretch of a compression master before the place at which a frame is permanent, or dropped, at its point.
    pub fn before_permanence(
        &self,
        device: DeviceId,
        time: u64,
        link: LinkId,
        cause: u64,
        frame: &Pcf,
        point: Units,
    ) -> Stretch<'_>
        requires { device.0 < device_count self.now }
        ensures { (network : networks.Network) (hs : List Happening) → Stands network hs self.now
            → is_cm network device ≡ true
            → HasPoints network (points_of (before_permanence hs device time link cause frame.now point) device)
            result.collections.now result.gathering }
    {
        self.before(
            device,
            &Place::of_permanence(time, device, point, frame.members.0, link, cause),
        )
    }

    /// How many records so far changed the stretch of a device.
    pub fn changes(&self, device: DeviceId) -> usize
        requires { device.0 < device_count self.now }
        ensures { (kept : Stretches) → kept_of self.now device ≡ Some kept → result ≡ length kept.entries }
    {
        self.kept[device.0 as usize].entries.len()
    }

    /// The time of one of these records, in their order, and the stretch behind it.
    pub fn changed(&self, device: DeviceId, place: usize) -> (u64, Stretch<'_>)
        requires device { device.0 < device_count self.now }
        requires place { (kept : Stretches) → kept_of self.now device ≡ Some kept → place < length kept.entries }
        ensures { (kept : Stretches) (e : Entry) → kept_of self.now device ≡ Some kept
            → slice_get kept.entries place ≡ Some e
            → IsBehind kept e result.0 result.1.collections.now result.1.gathering }
    {
        let kept = &self.kept[device.0 as usize];
        let entry = &kept.entries[place];
        let stretch = Stretch {
            collections: &kept.collections,
            gathering: entry.gathering,
        };
        (entry.place.time(), stretch)
    }

    /// The stretch of a compression master behind all records so far.
    pub fn latest(&self, device: DeviceId) -> Stretch<'_>
        requires { device.0 < device_count self.now }
        ensures { (network : networks.Network) (hs : List Happening) → Stands network hs self.now
            → is_cm network device ≡ true
            → HasPoints network (points_of hs device) result.collections.now result.gathering }
    {
        let kept = &self.kept[device.0 as usize];
        Stretch {
            collections: &kept.collections,
            gathering: kept.latest,
        }
    }
}
