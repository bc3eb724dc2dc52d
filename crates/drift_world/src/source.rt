ghost use Rattle.std.specs.Prelude.{◌+◌, ◌<◌, ◌≡◌, ◌≤◌, IfNone, IfSome, Option, Some, ℕ};
ghost use Rattle.{drift_world.specs.Turns.source_rank, run_law.specs.plain.Places.number_of};
ghost use Rattle.world_state.specs.timers.Times.{IsFirst as IsFirstDue};

use crate::part::Part;
use crate::state::State;
use drift_clock::Clock;
use net_plan::{DeviceId, Network};
use run_law::Machine;
use run_law::plain::Rank;
use world_state::contents::Waits;
use world_state::queue::DueAt;
use world_state::timers::SlotTimer;

/// What comes first of all that is under way: at the present instant, or later.
#[derive(Clone, Copy)]
pub enum Source {
    /// The outcomes of the events of the instant are to be settled.
    Events,
    /// What is on a wire arrives.
    Arrival(DueAt),
    /// A frame that waits is permanent: this one, at this index.
    Ripening(Waits),
    /// A device does what is due of a part.
    Act(Part, DeviceId),
    /// A frame at a port leaves.
    Departure(DueAt),
    /// The clock of a device is shown, at the end.
    Clock(DeviceId),
    /// Nothing is under way before this time, which is later.
    Later(u64),
}

impl Source {
    /// The rank of its place: more than that of any record, where it is not of the present instant.
    pub fn rank(&self) -> u8
        ensures { result ≡ source_rank self.now }
    {
        match self {
            Source::Events | Source::Arrival(_) => Rank::Arrived.number(),
            Source::Ripening(_) => Rank::Permanent.number(),
            Source::Act(part, _) => part.rank().number(),
            Source::Departure(_) => Rank::Left.number(),
            Source::Clock(_) => Rank::Clock.number(),
            Source::Later(_) => Rank::BEYOND,
        }
    }
}

/// The place, if it is of this time and rank.
fn placed_at(place: Option<DueAt>, time: u64, rank: Rank) -> Option<DueAt>
    ensures some { IfSome result (λ p. (place ≡ Some p) × (p.at ≡ time) × (p.rank ≡ number_of rank)) }
    ensures none { IfNone result (IfSome place (λ p. p.at ≡ time → p.rank ≡ number_of rank → ⊥)) }
{
    let place = place?;
    if place.at == time && place.rank == u32::from(rank.number()) {
        Some(place)
    } else {
        None
    }
}

/// The slot that is due, if it is at this time.
fn slot_at(due: Option<SlotTimer>, time: u64) -> Option<SlotTimer>
    ensures some { IfSome result (λ d. due ≡ Some (record { time = time; rank = d.rank; slot = d.slot })) }
    ensures none { IfNone result (IfSome due (λ d. d.time ≡ time → ⊥)) }
{
    let due = due?;
    if due.time == time { Some(due) } else { None }
}

/// The least of the times of a place, of a timer and of this one.
pub fn least_of(place: Option<DueAt>, due: Option<SlotTimer>, time: u64) -> u64
    ensures within { result ≤ time }
    ensures place { IfSome place (λ p. result ≤ p.at) }
    ensures due { IfSome due (λ d. result ≤ d.time) }
    ensures later { (now : ℕ) → now < time → IfSome place (λ p. now < p.at) → IfSome due (λ d. now < d.time)
        → now < result }
{
    let least = match place {
        Some(place) => time.min(place.at),
        None => time,
    };
    match due {
        Some(due) => least.min(due.time),
        None => least,
    }
}

impl<C: Clock, M: Machine + Drop> State<C, M> {
    ghost use Rattle.drift_world.specs.{Sourcing.AreFirsts, Turns.{IsForemost, IsSlotPlace, IsThere, IsWithin}};
    ghost use Rattle.drift_world.specs.{Turns.{MayTurn, source_place}, Wells.IsWell};

    /// What comes first of all that is under way before a time, where the place of the first that is in the queue and the
    /// first timer are these.
    #[inline(always)]
    pub fn source_by(
        &self,
        network: &Network,
        until: u64,
        place: Option<DueAt>,
        due: Option<SlotTimer>,
    ) -> Source
        requires may { MayTurn C.last_step C.reading M.stands network.now until self.now }
        requires firsts { AreFirsts self.now place due }
        ensures foremost { IsForemost C.reading M.stands network.now self.now result }
        ensures within { IsWithin until result }
    {
        if self.pending {
            return Source::Events;
        }
        if let Some(arrival) = placed_at(place, self.time, Rank::Arrived) {
            return Source::Arrival(arrival);
        }
        if let Some(first) = slot_at(due, self.time) {
            return self.source_of_slot(network, first.rank, first.slot);
        }
        if let Some(departure) = placed_at(place, self.time, Rank::Left) {
            return Source::Departure(departure);
        }
        if self.ended && (self.shown as usize) < network.device.as_slice().len() {
            return Source::Clock(DeviceId(self.shown));
        }
        Source::Later(least_of(place, due, until))
    }

    /// The source of a slot that is due now: the first of the frames that wait at its device, or a part of the device's
    /// acts.
    #[inline(always)]
    fn source_of_slot(&self, network: &Network, rank: u8, slot: usize) -> Source
        requires well { IsWell C.last_step C.reading M.stands network.now self.now }
        requires due { IsFirstDue self.now.timers (record { time = self.now.time; rank = rank; slot = slot }) }
        ensures there { IsThere C.reading M.stands network.now self.now result }
        ensures within { (until : ℕ) → IsWithin until result }
        ensures place { IsSlotPlace C.reading network.now self.now (record {
          time = self.now.time;
          rank = rank;
          slot = slot;
        }) (source_place self.now.time result) }
    {
        let devices = network.device.as_slice().len();
        if slot < devices {
            if let Some(one) = self.ripe_frame(network, DeviceId(slot as u32)) {
                return Source::Ripening(one);
            }
        }
        Source::Act(Part::of_rank(rank), DeviceId((slot - devices) as u32))
    }
}
