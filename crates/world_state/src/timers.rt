//! When each of some slots is due, of which the first is at hand.

ghost use Rattle.std.specs.Prelude.{◌%◌, ◌*◌, ◌+◌, ◌/◌, ◌<◌, ◌^◌, ◌≡◌, IfNone, IfOk, IfSome, Some};
ghost use Rattle.std.specs.Prelude.{length, replicate, slice_get, slice_set};
ghost use Rattle.world_state.specs.timers.Times.{AreFrom, IsFirst, never, unset};

use device_rules::least_key::{Keys, key_of, order_of, time_of};
use std::alloc::{AllocError, Global};
use std::marker::Model;

/// The time of a slot that is never due.
pub const NEVER: u64 = u64::MAX;

/// More than the number of any slot.
const SLOTS: u64 = 1 << 56;

/// A time, and the rank of what is due then among all that is due at one time.
#[derive(Clone, Copy)]
pub struct Timer {
    pub time: u64,
    pub rank: u8,
}

/// A slot, and its timer.
#[derive(Clone, Copy, Debug, PartialEq, Eq)]
pub struct SlotTimer {
    pub time: u64,
    pub rank: u8,
    pub slot: usize,
}

/// A timer for each of some slots. Their keys come in the order of the times, then of the ranks, then of the slots.
#[derive(Drop)]
pub struct Timers {
    keys: Keys,
}

impl Model for Timers {
    ghost use Rattle.std.specs.Prelude.{List, map};
    ghost use Rattle.world_state.specs.declared.timers.Timer.{Timer as TimerOf};
    ghost use Rattle.world_state.specs.timers.SlotKeys.{AreKeys, timer_of};

    ghost Value = { List TimerOf };

    ghost view = { λ t. map timer_of t.keys };

    ghost invariant = { λ t. AreKeys t.keys };
}

/// The order of a slot among those of one time: by its rank, and then by its number.
fn order_for(rank: u8, slot: usize) -> u64
    requires { slot < 2 ^ 56 }
    ensures { result ≡ rank * 2 ^ 56 + slot }
{
    u64::from(rank) * SLOTS + slot as u64
}

/// The rank of what is of this order.
fn rank_of(order: u64) -> u8
    ensures { result ≡ order / 2 ^ 56 }
{
    (order / SLOTS) as u8
}

/// The slot of this order.
fn slot_of(order: u64) -> usize
    ensures { result ≡ order % 2 ^ 56 }
{
    (order % SLOTS) as usize
}

impl Timers {
    /// So many slots, none of which is ever due.
    pub fn new(alloc: Global, slots: usize) -> Result<Timers, AllocError>
        requires { 2 * slots < 2 ^ 64 }
        ensures { IfOk result (λ timers. timers ≡ replicate slots unset) }
    {
        let keys = Keys::new(alloc, slots)?;
        Ok(Timers { keys })
    }

    /// Sets the timer of a slot.
    pub fn set(&mut self, slot: usize, time: u64, rank: u8)
        requires within { slot < length self.old }
        requires low { slot < 2 ^ 56 }
        ensures { self.new ≡ slice_set self.old slot (record { time = time; rank = rank }) }
    {
        self.keys.set(slot, key_of(time, order_for(rank, slot)));
    }

    /// The timer of a slot.
    pub fn get(&self, slot: usize) -> Timer
        requires { slot < length self.now }
        ensures { slice_get self.now slot ≡ Some result }
    {
        let key = self.keys.get(slot);
        Timer {
            time: time_of(key),
            rank: rank_of(order_of(key)),
        }
    }

    /// The slot that is due first, of those at one time that of the lowest rank, and of these the lowest, unless none is
    /// ever due.
    pub fn first(&self) -> Option<SlotTimer>
        ensures first { IfSome result (λ due. IsFirst self.now due) }
        ensures none { IfNone result (AreFrom never self.now) }
    {
        let key = self.keys.least();
        let time = time_of(key);
        if time == NEVER {
            return None;
        }
        let order = order_of(key);
        Some(SlotTimer {
            time,
            rank: rank_of(order),
            slot: slot_of(order),
        })
    }
}
