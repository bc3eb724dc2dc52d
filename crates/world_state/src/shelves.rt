ghost use Rattle.std.specs.Prelude.{◌≡◌, [], ◌<◌, Some, slice_set, option_copied, OnOk, MatchOption, length};
ghost use Rattle.world_state.specs.Shelves.{HasPlace, IsHeldAt, IsLengthened, NoneHeld, at_place, frame_at};
ghost use Rattle.world_state.specs.Storing.{IsHeldInstead};

use crate::contents::{HoldSpot, Holding};
use net_plan::{DeviceId, VlId};
use std::alloc::{AllocError, Global};
use std::marker::Model;

/// The frames that a switch holds, each at the place of its virtual link.
#[derive(Drop)]
struct Shelf {
    places: Vec<Option<Holding>>,
}

impl Model for Shelf {
    ghost use Rattle.world_state.specs.Shelves.{Places};

    ghost Value = { Places };

    ghost view = { λ s. s.places.items };
}

impl Shelf {
    /// A shelf without a place.
    fn new(alloc: Global) -> Shelf
        ensures { result ≡ [] }
    {
        Shelf {
            places: Vec::new(alloc),
        }
    }

    /// Makes places up to that of the virtual link.
    fn reserve(&mut self, vl: VlId) -> Result<(), AllocError>
        ensures longer { IsLengthened self.old self.new }
        ensures there { OnOk result (vl.0 < length self.new) }
    {
        'places: while self.places.len() <= vl.0 as usize {
            if self.places.push(None).is_err() {
                return Err(AllocError);
            }
        }
        Ok(())
    }

    /// Puts the frame at the place of its virtual link.
    fn put(&mut self, one: Holding)
        requires { one.vl.0 < length self.old }
        ensures { self.new ≡ slice_set self.old one.vl.0 (Some one) }
    {
        let place = one.vl.0 as usize;
        self.places[place] = Some(one);
    }

    /// The frame at the place of the virtual link.
    fn find(&self, vl: VlId) -> Option<&Holding>
        ensures { option_copied result ≡ at_place vl.0 self.now }
    {
        match self.places.get(vl.0 as usize) {
            Some(Some(held)) => Some(held),
            Some(None) | None => None,
        }
    }
}

/// The frames that switches hold: those of each switch on a shelf of its own.
#[derive(Drop)]
pub struct Shelves {
    shelves: Vec<Shelf>,
}

impl Model for Shelves {
    ghost use Rattle.world_state.specs.Shelves.{AreShelved, Shelved, frames_in};

    ghost Value = { Shelved };

    ghost view = { λ s. record { items = frames_in s.shelves.items; shelves = s.shelves.items } };

    ghost invariant = { λ s. AreShelved s.shelves.items };
}

impl Shelves {
    /// No frame is held.
    pub fn new(alloc: Global) -> Shelves
        ensures { result.items ≡ [] }
    {
        Shelves {
            shelves: Vec::new(alloc),
        }
    }

    /// Makes shelves up to that of the device.
    fn grow(&mut self, device: DeviceId) -> Result<(), AllocError>
        ensures items { self.new.items ≡ self.old.items }
        ensures there { OnOk result (device.0 < length self.new.shelves) }
    {
        let alloc = *self.shelves.allocator();
        'shelves: while self.shelves.len() <= device.0 as usize {
            if self.shelves.push(Shelf::new(alloc)).is_err() {
                return Err(AllocError);
            }
        }
        Ok(())
    }

    /// Makes a place for the frame of the virtual link at the switch.
    pub fn reserve(&mut self, spot: HoldSpot) -> Result<(), AllocError>
        ensures items { self.new.items ≡ self.old.items }
        ensures place { OnOk result (HasPlace self.new spot) }
    {
        match self.grow(spot.device) {
            Ok(()) => self.shelves[spot.device.0 as usize].reserve(spot.vl),
            Err(error) => Err(error),
        }
    }

    /// The switch holds this frame, in place of the one that it held of the virtual link.
    pub fn put(&mut self, one: Holding)
        requires { HasPlace self.old (record { device = one.device; vl = one.vl }) }
        ensures { IsHeldInstead one self.old.items self.new.items }
    {
        self.shelves[one.device.0 as usize].put(one);
    }

    /// The frame of the virtual link that the switch holds.
    pub fn get(&self, spot: HoldSpot) -> Option<&Holding>
        ensures is { option_copied result ≡ frame_at self.now spot }
        ensures held { MatchOption (frame_at self.now spot) (NoneHeld self.now.items spot)
            (IsHeldAt self.now.items spot) }
    {
        match self.shelves.get(spot.device.0 as usize) {
            Some(shelf) => shelf.find(spot.vl),
            None => None,
        }
    }
}
