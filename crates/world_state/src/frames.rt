ghost use Rattle.std.specs.Prelude.{◌<◌, ◌==◌, ◌∷◌, ◌≡◌, ◌≤ℤ◌, IfSome, IsNone, IsPermutation, MatchOption, OnOk, []};
ghost use Rattle.std.specs.Prelude.{filter, is_some, length, not, option_copied, pos, true};
ghost use Rattle.run_law.specs.scenario.Hypothesis.{breaks_at};
ghost use Rattle.world_state.specs.Frames.{IsFirstAt, NoneAt, first_of, queue_place, room_of};

use crate::contents::Waits;
use crate::queue::{DueAt, UnderWay};
use net_plan::DeviceId;
use std::alloc::{AllocError, Global};
use std::marker::Model;

/// The frames that wait for their permanence: those of each device in a queue of its own, in the order in which they
/// are permanent.
#[derive(Drop)]
pub struct Frames {
    queues: Vec<UnderWay<Waits>>,
}

impl Model for Frames {
    ghost use Rattle.world_state.specs.Frames.{Waiting, AreQueued, frames_in};

    ghost Value = { Waiting };

    ghost view = { λ f. record { items = frames_in f.queues.items; queues = f.queues.items } };

    ghost invariant = { λ f. AreQueued f.queues.items };
}

/// Where a frame stands in the queue of its device.
fn place_of(waits: &Waits) -> DueAt
    ensures { result ≡ queue_place waits.now }
{
    DueAt {
        at: waits.point.0.unsigned_abs(),
        rank: 0,
        device: waits.frame.members.0,
        link: waits.link.0,
        cause: waits.cause,
    }
}

impl Frames {
    /// No frame waits.
    pub fn new(alloc: Global) -> Frames
        ensures { result.items ≡ [] }
    {
        Frames {
            queues: Vec::new(alloc),
        }
    }

    /// Makes queues up to that of the device.
    fn grow(&mut self, device: DeviceId) -> Result<(), AllocError>
        ensures items { self.new.items ≡ self.old.items }
        ensures there { OnOk result (device.0 < length self.new.queues) }
    {
        let alloc = *self.queues.allocator();
        'queues: while self.queues.len() <= device.0 as usize {
            if self.queues.push(UnderWay::new(alloc)).is_err() {
                return Err(AllocError);
            }
        }
        Ok(())
    }

    /// Takes room for one more at the device.
    #[inline(always)]
    pub fn reserve(&mut self, device: DeviceId) -> Result<(), AllocError>
        ensures items { self.new.items ≡ self.old.items }
        ensures room { OnOk result (0 < room_of self.new device.0) }
    {
        match self.grow(device) {
            Ok(()) => self.queues[device.0 as usize].reserve(1),
            Err(error) => Err(error),
        }
    }

    /// One more waits at its device, where there is room.
    pub fn put(&mut self, one: Waits)
        requires room { 0 < room_of self.old one.device.0 }
        requires begun { pos 0 ≤ℤ one.point.0 }
        ensures { IsPermutation (one ∷ self.old.items) self.new.items }
    {
        self.queues[one.device.0 as usize].put(place_of(&one), one);
    }

    /// The first of the frames that wait at the device.
    pub fn first(&self, device: DeviceId) -> Option<&Waits>
        ensures is { option_copied result ≡ first_of self.now device.0 }
        ensures first { MatchOption (first_of self.now device.0) (NoneAt self.now.items device.0)
            (IsFirstAt self.now.items device.0) }
    {
        match self.queues.get(device.0 as usize) {
            Some(queue) => queue.peek(),
            None => None,
        }
    }

    /// Takes out the first of the frames that wait at the device.
    pub fn take_first(&mut self, device: DeviceId) -> Waits
        requires some { is_some (first_of self.old device.0) ≡ true }
        ensures is { first_of self.old device.0 ≡ Some result }
        ensures items { IsPermutation self.old.items (result ∷ self.new.items) }
    {
        self.queues[device.0 as usize].take_first().unwrap().content
    }

    /// No frame waits at the device any more.
    pub fn drop_all(&mut self, device: DeviceId)
        ensures { self.new.items ≡ filter (λ w. not (device.0 == w.device.0)) self.old.items }
    {
        let index = device.0 as usize;
        if index < self.queues.len() {
            let alloc = *self.queues.allocator();
            self.queues[index] = UnderWay::new(alloc);
        }
    }
}
