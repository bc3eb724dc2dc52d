ghost use Rattle.std.specs.Prelude.{◌++◌, ◌+◌, ◌<ℤ◌, ◌<◌, ◌^◌, ◌∷◌, ◌≡◌, ◌≤ℤ◌, IfNone, IfOk, IfSome, List, MatchResult};
ghost use Rattle.std.specs.Prelude.{OnErr, [], neg_ℤ, pos, true};
ghost use Rattle.drift_world.specs.Later.{ComesBehind, IsAtTime, MayApply, MayApplyAgain, bounded};
ghost use Rattle.drift_world.specs.Locals.{IsComplete, IsLocalClock, IsLocalClockBefore, MayShowAt};
ghost use Rattle.drift_world.specs.Running.{ComesUpTo, StandsUnder, event_note, given_by, left_of, reading_of};
ghost use Rattle.net_plan.specs.declared.{event.Event.{Event as EventValue}, network.Network.Network};
ghost use Rattle.{precision_law.specs.traffic.safety.Headline.IsSafeFront, world_drive.specs.devices.Locals.local_of};
ghost use Rattle.run_law.specs.{declared.note.Note.{Note as NoteValue}, records.Happenings.happenings};
ghost use Rattle.{tte_units.specs.Amount.amount, world_drive.specs.machines.Standing.StandsAsDevice};
ghost use Rattle.world_law.specs.source.Agreeing.{scenario};

use crate::machines::{DeviceMachine, machines_of};
use drift_clock::Clock;
use drift_world::{OutOfMemory, World as MachineWorld};
use net_plan::{DeviceId, Event};
use run_law::Note;
use schedule_tables::Accepted;
use std::alloc::Global;
use tte_units::Units;

/// So many units, where they have fewer than 64 bits.
pub fn whole_units(local: i128) -> Units
    requires low { neg_ℤ (pos (2 ^ 62)) <ℤ local }
    requires high { local <ℤ pos (2 ^ 62) }
    ensures { result.0 ≡ local }
{
    Units(local as i64)
}

/// A network as it runs: events are applied to it, and it gives the records of its run.
#[derive(Drop)]
pub struct World<'a, C: Clock> {
    /// The world of these machines.
    pub inner: MachineWorld<'a, C, DeviceMachine>,
}

impl<'a, C: Clock> World<'a, C> {
    /// The world of a network at time 0, which nothing has befallen.
    pub fn begin(alloc: Global, accepted: &'a Accepted) -> Result<World<'a, C>, OutOfMemory>
        ensures stands { IfOk result (λ world.
            StandsUnder C.fresh C.after_step C.reading StandsAsDevice accepted.now world.inner [] []) }
        ensures fresh { IfOk result (λ world. (world.inner.now ≡ 0) × (world.inner.early ≡ true)) }
    {
        let Ok(machines) = machines_of(alloc, accepted) else {
            return Err(OutOfMemory);
        };
        match MachineWorld::begin(alloc, accepted, machines) {
            Ok(inner) => Ok(World { inner }),
            Err(error) => Err(error),
        }
    }

    /// The event of this line befalls the network, at its time, before which no record is left. Its record is answered.
    ///
    /// The lines count the events from 1. The event is within the fault hypothesis after those applied, comes before
    /// the end, and is not past. A hold that it sets is a time from 0 on. On an error it has not befallen the network,
    /// and may be applied again.
    pub fn apply(&mut self, line: u64, event: &Event) -> Result<Note, OutOfMemory>
        requires may { MayApply C.fresh C.after_step C.reading StandsAsDevice self.old.inner line event.now }
        ensures stands { (network : Network) (events : List EventValue) (notes : List NoteValue)
            → ComesBehind C.fresh C.after_step C.reading StandsAsDevice network self.old.inner events notes event.now
            → MatchResult result
            (λ note. StandsUnder C.fresh C.after_step C.reading StandsAsDevice network self.new.inner
            (events ++ event.now ∷ []) (notes ++ note ∷ []))
            (λ _. StandsUnder C.fresh C.after_step C.reading StandsAsDevice network self.new.inner events notes) }
        ensures note { IfOk result (λ note. note ≡ event_note (self.old.inner.given + 1) line event.now) }
        ensures at { IfOk result (λ _. IsAtTime self.new.inner event.now.time) }
        ensures err { OnErr result (MayApplyAgain self.old.inner self.new.inner event.now.time) }
    {
        self.inner.apply(line, event)
    }

    /// The next record before a time, which is at most 2^60 + 1. It is None exactly where none is due before it: then
    /// the records given are the run up to the time, and in the first 2^20 cycles this run is safe. After the end
    /// nothing later than it is due, so that the time is at most the one behind the end.
    ///
    /// Where it is None, and the end has not come, the world comes to this time. On an error no record is lost: those
    /// to come are the same. The world may have worked ahead, but is before the time still, and may be asked again.
    pub fn next(&mut self, until: Units) -> Result<Option<Note>, OutOfMemory>
        requires limit { until.0 ≤ℤ pos (2 ^ 60 + 1) }
        ensures stands { (network : Network) (events : List EventValue) (notes : List NoteValue)
            → StandsUnder C.fresh C.after_step C.reading StandsAsDevice network self.old.inner events notes
            → StandsUnder C.fresh C.after_step C.reading StandsAsDevice network self.new.inner events
            (notes ++ given_by result) }
        ensures complete { (network : Network) (events : List EventValue) (notes : List NoteValue)
            → StandsUnder C.fresh C.after_step C.reading StandsAsDevice network self.old.inner events notes
            → pos self.old.inner.now <ℤ until.0
            → IfOk result (λ next. IfNone next
            (IsSafeFront C.fresh C.after_step C.reading network events (amount (bounded self.old.inner until)) notes)) }
        ensures reached { ComesUpTo self.old.inner self.new.inner (bounded self.old.inner until) result }
        ensures fewer { IfOk result (λ next. IfSome next (λ _. left_of self.new.inner < left_of self.old.inner)) }
    {
        self.inner.next(until)
    }

    /// A device's local clock at a time: its reading, and its adjustment by the records up to the time. It is None
    /// exactly where the device is broken, or not synchronised by these events and records.
    ///
    /// Either the records given are all of the run up to the time. Or it is the present time, and nothing of it but
    /// events is worked off, as right after an event: then the records are those of earlier times.
    pub fn local(&self, device: DeviceId, t: Units) -> Option<Units>
        requires may { MayShowAt C.fresh C.after_step C.reading StandsAsDevice self.now.inner device t }
        ensures local { (network : Network) (events : List EventValue) (notes : List NoteValue)
            → IsComplete C.fresh C.after_step C.reading StandsAsDevice network self.now.inner (amount t) events notes
            → IsLocalClock (scenario network (reading_of C.fresh C.after_step C.reading network events) events)
            (happenings network notes) device (amount t) (local_of result) }
        ensures before { (network : Network) (events : List EventValue) (notes : List NoteValue)
            → StandsUnder C.fresh C.after_step C.reading StandsAsDevice network self.now.inner events notes
            → (amount t ≡ self.now.inner.now) × (self.now.inner.early ≡ true)
            → IsLocalClockBefore (scenario network (reading_of C.fresh C.after_step C.reading network events) events)
            (happenings network notes) device (amount t) (local_of result) }
    {
        match self.inner.local_at(device, t) {
            Some(local) => Some(whole_units(local)),
            None => None,
        }
    }
}
