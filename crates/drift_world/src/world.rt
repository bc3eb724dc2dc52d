ghost use Rattle.std.specs.Prelude.{◌++◌, ◌+◌, ◌<ℤ◌, ◌<◌, ◌^◌, ◌∷◌, ◌≡◌, ◌≤ℤ◌, IfNone, IfOk, IfSome, List, MatchResult};
ghost use Rattle.std.specs.Prelude.{OnErr, [], false, length, pos, true};
ghost use Rattle.net_plan.specs.declared.{event.Event.{Event as EventValue}, network.Network.Network};
ghost use Rattle.run_law.specs.{declared.note.Note.{Note as NoteValue}, scenario.Hypothesis.IsWithinHypothesis};
ghost use Rattle.{run_law.specs.records.Happenings.happenings, world_law.specs.source.Agreeing.scenario};
ghost use Rattle.tte_units.specs.Amount.{amount};

mod on_wire;

use crate::begin::fresh_state;
use crate::local::local_of;
use crate::state::State;
use device_rules::TellsKind;
use drift_clock::Clock;
use net_plan::{DeviceId, Event};
use run_law::plain::PlainNote;
use run_law::{Machine, Note};
use schedule_tables::Accepted;
use std::alloc::Global;
use std::marker::Model;
use tte_units::Units;
use world_state::OutOfMemory;
use world_state::event_notes::EventNote;

/// A network as it runs: events are applied to it, and it gives the records of its run.
#[derive(Drop)]
pub struct World<'a, C: Clock, M: Machine + Drop> {
    accepted: &'a Accepted,
    state: State<C, M>,
}

impl<'a, C: Clock, M: Machine + Drop> Model for World<'a, C, M> {
    ghost use Rattle.{world_law.specs.world.World.World, world_state.specs.declared.kept.Kept.Kept};

    ghost Value = { World C (Kept M) };

    ghost use Rattle.drift_world.specs.{Views.world_of, Wells.IsWell};

    ghost view = { λ w. world_of w.accepted.now w.state };

    ghost invariant = { λ w. IsWell C.last_step C.reading M.stands w.accepted.now w.state };
}

impl<'a, C: Clock, M: TellsKind + Drop> World<'a, C, M> {
    ghost use Rattle.precision_law.specs.traffic.safety.Headline.{IsSafeFront};
    ghost use Rattle.drift_world.specs.{Beginning.AreFresh, Locals.{IsRunTime, IsWide, MayShow, MayShowAt}};
    ghost use Rattle.drift_world.specs.Later.{ComesBehind, IsAtTime, MayApply, MayApplyAgain, bounded};
    ghost use Rattle.drift_world.specs.Locals.{AreSmall, IsComplete, IsLocalClock, IsLocalClockBefore, IsLocalValue};
    ghost use Rattle.drift_world.specs.{Locals.MayShowBefore, Running.{ComesUpTo, MayAsk, MayBefall, StandsUnder}};
    ghost use Rattle.drift_world.specs.Running.{event_note, given_by, left_of, next_of, reading_of};

    /// The world of a network at time 0: nothing has befallen it, and its machines have just begun.
    pub fn begin(
        alloc: Global,
        accepted: &'a Accepted,
        machines: Vec<M>,
    ) -> Result<World<'a, C, M>, OutOfMemory>
        requires { AreFresh M.stands accepted.now machines.items }
        ensures stands { IfOk result (λ world.
            StandsUnder C.fresh C.after_step C.reading M.stands accepted.now world [] []) }
        ensures fresh { IfOk result (λ world. (world.now ≡ 0) × (world.early ≡ true)) }
    {
        let network = accepted.network();
        let mut state = fresh_state(alloc, network, machines)?;
        state.rekey_all(network);
        Ok(World { accepted, state })
    }

    /// The event of this line befalls the network, at the present time. Its record is answered.
    ///
    /// The lines count the events from 1. The event is within the fault hypothesis after those applied, and comes
    /// before the end. A hold that it sets is a time from 0 on. On an error nothing has changed.
    ///
    /// The answer is small, and seen as the record that it stands for.
    pub fn befall<'e>(&mut self, line: u64, event: &'e Event) -> Result<EventNote<'e>, OutOfMemory>
        requires may { MayBefall C.fresh C.after_step C.reading M.stands self.old line event.now }
        ensures stands { (network : Network) (events : List EventValue) (notes : List NoteValue)
            → StandsUnder C.fresh C.after_step C.reading M.stands network self.old events notes
            → IsWithinHypothesis network events event.now
            → IfOk result (λ note. StandsUnder C.fresh C.after_step C.reading M.stands network self.new (events
            ++ event.now ∷ [])
            (notes ++ note ∷ [])) }
        ensures note { IfOk result (λ note. note ≡ event_note (self.old.given + 1) line event.now) }
        ensures still { (self.new.now ≡ self.old.now) × (self.new.early ≡ self.old.early) }
        ensures err { OnErr result (self.new ≡ self.old) }
    {
        let network = self.accepted.network();
        let note = match self.state.apply(network, event) {
            Ok(note) => note,
            Err(error) => return Err(error),
        };
        self.state.rekey_by(network, &event.what);
        Ok(note)
    }

    /// The event of this line befalls the network, at its time, before which no record is left. Its record is answered.
    ///
    /// The lines count the events from 1. The event is within the fault hypothesis after those applied, comes before
    /// the end, and is not past. A hold that it sets is a time from 0 on. On an error it has not befallen the network,
    /// and may be applied again.
    pub fn apply(&mut self, line: u64, event: &Event) -> Result<Note, OutOfMemory>
        requires may { MayApply C.fresh C.after_step C.reading M.stands self.old line event.now }
        ensures stands { (network : Network) (events : List EventValue) (notes : List NoteValue)
            → ComesBehind C.fresh C.after_step C.reading M.stands network self.old events notes event.now
            → MatchResult result (λ note. StandsUnder C.fresh C.after_step C.reading M.stands network self.new
            (events ++ event.now ∷ []) (notes ++ note ∷ []))
            (λ _. StandsUnder C.fresh C.after_step C.reading M.stands network self.new events notes) }
        ensures note { IfOk result (λ note. note ≡ event_note (self.old.given + 1) line event.now) }
        ensures at { IfOk result (λ _. IsAtTime self.new event.now.time) }
        ensures err { OnErr result (MayApplyAgain self.old self.new event.now.time) }
    {
        let mut given = PlainNote::none();
        match self.next_given(event.time, &mut given) {
            Ok(_) => {}
            Err(error) => return Err(error),
        }
        match self.befall(line, event) {
            Ok(given) => Ok(given.note()),
            Err(error) => Err(error),
        }
    }

    /// Puts the next record before a time, which is at most 2^60 + 1, in the place of another: is there one? There is
    /// none exactly where none is due before it: then the records given are the run up to the time, and in the first
    /// 2^20 cycles this run is safe.
    ///
    /// Where there is none, and the end has not come, the world comes to this time. After the end the time is at most
    /// the one behind it. On an error no record is lost: those to come are the same. The world may have worked ahead,
    /// but is before the time still, and may be asked again.
    ///
    /// What is put is small, and seen as the record that it stands for.
    pub fn next_given(&mut self, until: Units, note: &mut PlainNote) -> Result<bool, OutOfMemory>
        requires may { MayAsk self.old until }
        ensures stands { (network : Network) (events : List EventValue) (notes : List NoteValue)
            → StandsUnder C.fresh C.after_step C.reading M.stands network self.old events notes
            → StandsUnder C.fresh C.after_step C.reading M.stands network self.new events (notes
            ++ given_by (next_of result note.new)) }
        ensures complete { (network : Network) (events : List EventValue) (notes : List NoteValue)
            → StandsUnder C.fresh C.after_step C.reading M.stands network self.old events notes
            → pos self.old.now <ℤ until.0
            → IfOk result (λ more. more ≡ false
            → IsSafeFront C.fresh C.after_step C.reading network events (amount until) notes) }
        ensures reached { ComesUpTo self.old self.new until (next_of result note.new) }
        ensures fewer { IfOk result (λ more. more ≡ true → left_of self.new < left_of self.old) }
    {
        if until.0 <= Units::from_amount(self.state.time).0 {
            return Ok(false);
        }
        self.state
            .next(self.accepted.network(), until.amount(), note)
    }

    /// The time up to which records are asked for: after the end it is at most the one behind it.
    fn bounded(&self, until: Units) -> Units
        ensures is { result ≡ bounded self.now until }
        ensures most { result.0 ≤ℤ until.0 }
        ensures ended { self.now.ended ≡ true → result.0 ≤ℤ pos (self.now.now + 1) }
        ensures later { pos self.now.now <ℤ until.0 → pos self.now.now <ℤ result.0 }
    {
        let behind = Units::from_amount(self.state.time + 1);
        if self.state.ended && behind.0 < until.0 {
            behind
        } else {
            until
        }
    }

    /// The next record before a time, which is at most 2^60 + 1. It is None exactly where none is due before it: then
    /// the records given are the run up to the time, and in the first 2^20 cycles this run is safe. After the end
    /// nothing later than it is due, so that the time is at most the one behind the end.
    ///
    /// Where it is None, and the end has not come, the world comes to this time. On an error no record is lost: those
    /// to come are the same. The world may have worked ahead, but is before the time still, and may be asked again.
    pub fn next(&mut self, until: Units) -> Result<Option<Note>, OutOfMemory>
        requires limit { until.0 ≤ℤ pos (2 ^ 60 + 1) }
        ensures stands { (network : Network) (events : List EventValue) (notes : List NoteValue)
            → StandsUnder C.fresh C.after_step C.reading M.stands network self.old events notes
            → StandsUnder C.fresh C.after_step C.reading M.stands network self.new events (notes ++ given_by result) }
        ensures complete { (network : Network) (events : List EventValue) (notes : List NoteValue)
            → StandsUnder C.fresh C.after_step C.reading M.stands network self.old events notes
            → pos self.old.now <ℤ until.0
            → IfOk result (λ next. IfNone next
            (IsSafeFront C.fresh C.after_step C.reading network events (amount (bounded self.old until)) notes)) }
        ensures reached { ComesUpTo self.old self.new (bounded self.old until) result }
        ensures fewer { IfOk result (λ next. IfSome next (λ _. left_of self.new < left_of self.old)) }
    {
        let time = self.bounded(until);
        let mut given = PlainNote::none();
        match self.next_given(time, &mut given) {
            Ok(true) => Ok(Some(given.note())),
            Ok(false) => Ok(None),
            Err(error) => Err(error),
        }
    }

    /// A device's local clock at a time: its reading and its adjustment by all records up to the time, in units of
    /// 2^-16 ns. It is None exactly where the device is broken, or not synchronised by these records.
    ///
    /// The time is from 0 to 2^60. No event so far is later, and the records given are all of the run up to the time:
    /// the world has come behind it, or is at the end, with the clocks shown.
    pub fn local(&self, device: DeviceId, t: Units) -> Option<i128>
        requires there { device.0 < length self.now.network.device }
        requires time { IsRunTime t }
        requires complete { MayShow C.fresh C.after_step C.reading M.stands self.now (amount t) }
        ensures local { (network : Network) (events : List EventValue) (notes : List NoteValue)
            → IsComplete C.fresh C.after_step C.reading M.stands network self.now (amount t) events notes
            → IsLocalClock (scenario network (reading_of C.fresh C.after_step C.reading network events) events)
            (happenings network notes) device (amount t) result }
        ensures range { IfSome result IsWide }
    {
        local_of(&self.state, self.accepted.network(), device, t)
    }

    /// A device's local clock at a time, in units of 2^-16 ns. Where the records given are all of the run up to the
    /// time, it is that of `local`; where this is the present time, and nothing of it but events is worked off, that of
    /// `local_before`.
    pub fn local_at(&self, device: DeviceId, t: Units) -> Option<i128>
        requires may { MayShowAt C.fresh C.after_step C.reading M.stands self.now device t }
        ensures local { (network : Network) (events : List EventValue) (notes : List NoteValue)
            → IsComplete C.fresh C.after_step C.reading M.stands network self.now (amount t) events notes
            → IsLocalClock (scenario network (reading_of C.fresh C.after_step C.reading network events) events)
            (happenings network notes) device (amount t) result }
        ensures before { (network : Network) (events : List EventValue) (notes : List NoteValue)
            → StandsUnder C.fresh C.after_step C.reading M.stands network self.now events notes
            → (amount t ≡ self.now.now) × (self.now.early ≡ true)
            → IsLocalClockBefore (scenario network (reading_of C.fresh C.after_step C.reading network events) events)
            (happenings network notes) device (amount t) result }
        ensures small { AreSmall M.stands → IfSome result IsLocalValue }
    {
        local_of(&self.state, self.accepted.network(), device, t)
    }

    /// A device's local clock at the present time, right after an event and before the records of this time: its
    /// reading, and its adjustment by the records of earlier times, in units of 2^-16 ns. It is None exactly where the
    /// events so far broke the device, or it is not synchronised by these events and the records of earlier times.
    pub fn local_before(&self, device: DeviceId) -> Option<i128>
        requires there { device.0 < length self.now.network.device }
        requires before { MayShowBefore C.fresh C.after_step C.reading M.stands self.now }
        ensures local { (network : Network) (events : List EventValue) (notes : List NoteValue)
            → StandsUnder C.fresh C.after_step C.reading M.stands network self.now events notes → self.now.early ≡ true
            → IsLocalClockBefore (scenario network (reading_of C.fresh C.after_step C.reading network events) events)
            (happenings network notes) device self.now.now result }
        ensures range { IfSome result IsWide }
    {
        let now = Units::from_amount(self.state.time);
        local_of(&self.state, self.accepted.network(), device, now)
    }
}
