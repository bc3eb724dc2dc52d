ghost use Rattle.std.specs.{Prelude.{◌+◌, ◌<◌, ◌≡◌, ◌≤◌}, VecDeque.{deque_capacity, deque_len}};
ghost use Rattle.world_state.specs.{Places.IsSomePut};

use crate::contents::Settled;
use crate::settled::put_in;
use net_plan::DeviceId;
use run_law::Why;
use run_law::plain::{PlainBody, PlainKind};
use std::collections::VecDeque;
use std::marker::Model;
use sync_state::State;

/// A change of state of a device, seen as its record. It is small, as it is of no frame.
#[derive(Drop)]
pub struct Change {
    /// The device.
    pub device: DeviceId,
    /// Its state from then on.
    pub state: State,
    /// The number of the record that it comes from, or 0.
    pub cause: u64,
    /// Why it changes.
    pub why: Why,
}

impl Model for Change {
    ghost use Rattle.run_law.specs.declared.note.NoteBody.TheVariants.{State as Changed};
    ghost use Rattle.{std.specs.Prelude.None, world_state.specs.declared.contents.Settled.{Settled as SettledValue}};

    ghost Value = { SettledValue };

    ghost view = { λ c. record { body = Changed c.device c.state c.cause c.why; frame = None; octets = None } };
}

impl Change {
    /// Its record.
    fn record(self) -> Settled
        ensures { result ≡ self }
    {
        Settled {
            body: PlainBody {
                kind: PlainKind::State {
                    device: self.device,
                    state: self.state,
                    cause: self.cause,
                    why: self.why,
                },
            },
            frame: None,
            octets: None,
        }
    }
}

/// Puts the record of a change in at its place, if there is one.
#[inline(always)]
pub fn put_change(settled: &mut VecDeque<Settled>, change: Option<Change>)
    requires room { deque_len settled.old < deque_capacity settled.old }
    ensures is { IsSomePut change settled.old.items settled.new.items }
    ensures len { deque_len settled.new ≤ deque_len settled.old + 1 }
    ensures capacity { deque_capacity settled.old ≤ deque_capacity settled.new }
{
    if let Some(change) = change {
        put_in(settled, change.record());
    }
}
