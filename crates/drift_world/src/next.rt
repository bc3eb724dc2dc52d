ghost use Rattle.std.specs.Prelude.{◌+◌, ◌<◌, ◌^◌, ◌∷◌, ◌≡◌, ◌≤◌, IfOk, IsTrue, List, OnErr, OnOk, [], false};
ghost use Rattle.std.specs.Prelude.{length, true};
ghost use Rattle.run_law.specs.{declared.note.Note.{Note as NoteOf}, runs.DueRecords.IsScenarioRun};
ghost use Rattle.{run_law.specs.scenario.Scenarios.Scenario, world_state.specs.Keeping.keeps};
ghost use Rattle.{drift_world.specs.Views.world_of, world_law.specs.world.World.Stands};

use crate::source::{Source, least_of};
use crate::state::State;
use device_rules::TellsKind;
use drift_clock::Clock;
use net_plan::Network;
use run_law::Machine;
use run_law::plain::PlainNote;
use world_state::OutOfMemory;
use world_state::queue::DueAt;
use world_state::settled::rank_of;
use world_state::timers::SlotTimer;

/// The last time of a run.
pub const LAST: u64 = 1 << 60;

/// What one turn of a world comes to.
#[derive(Clone, Copy)]
pub enum Turn {
    /// A record is given.
    Gives,
    /// None is due before the time.
    Ends,
    /// Something is worked off, or time passes.
    GoesOn,
}

impl<C: Clock, M: TellsKind + Drop> State<C, M> {
    ghost use Rattle.drift_world.specs.{Nearing.{IsNoFarther, Nears}, Sourcing.{AreFirsts, HasNothingBefore}};
    ghost use Rattle.drift_world.specs.{Running.{given_by, next_of}, Turns.{HasRoom, IsCalm, IsKept, IsPassed}};
    ghost use Rattle.drift_world.specs.Turns.{MayTurn, NextSays, SettledFirst, SourceFirst, TurnsTo, given_in};

    /// Puts the next record before a time in the place of another, if one is due before it: is one?
    ///
    /// Each turn that goes on comes nearer to the time: time passes, or there is less to work off at the instant.
    /// On an error it is not the time yet.
    pub fn next(
        &mut self,
        network: &Network,
        until: u64,
        note: &mut PlainNote,
    ) -> Result<bool, OutOfMemory>
        requires may { MayTurn C.last_step C.reading M.stands network.now until self.old }
        ensures kept { IsKept C.last_step C.reading M.stands network.now self.old self.new
            (given_by (next_of result note.new)) }
        ensures complete { (s : Scenario) (notes : List NoteOf)
            → Stands C.reading (keeps M.stands) s (world_of network.now self.old) notes
            → IfOk result (λ more. more ≡ false → IsScenarioRun s (until ∷ []) notes) }
        ensures says { NextSays self.old self.new until note.new result }
    {
        'turns: loop {
            match self.turn(network, until, note) {
                Ok(Turn::Gives) => return Ok(true),
                Ok(Turn::Ends) => return Ok(false),
                Ok(Turn::GoesOn) => {}
                Err(error) => return Err(error),
            }
        }
    }

    /// One turn: the first that is settled is given, or what comes first of all that is under way is worked off, or time
    /// passes.
    fn turn(
        &mut self,
        network: &Network,
        until: u64,
        note: &mut PlainNote,
    ) -> Result<Turn, OutOfMemory>
        requires may { MayTurn C.last_step C.reading M.stands network.now until self.old }
        ensures kept { IsKept C.last_step C.reading M.stands network.now self.old self.new (given_in result note.new) }
        ensures turns { IfOk result (TurnsTo C.reading M.stands network.now until self.old self.new note.new) }
        ensures err { OnErr result (self.new.time < until) }
    {
        if let Err(error) = self.make_places(network) {
            return Err(error);
        }
        self.roomy_turn(network, until, note)
    }

    /// A turn, for which there is room.
    #[inline(always)]
    fn roomy_turn(
        &mut self,
        network: &Network,
        until: u64,
        note: &mut PlainNote,
    ) -> Result<Turn, OutOfMemory>
        requires may { MayTurn C.last_step C.reading M.stands network.now until self.old }
        requires room { HasRoom network.now self.old }
        ensures kept { IsKept C.last_step C.reading M.stands network.now self.old self.new (given_in result note.new) }
        ensures turns { IfOk result (TurnsTo C.reading M.stands network.now until self.old self.new note.new) }
        ensures err { OnErr result (self.new.time < until) }
    {
        let place = self.under_way.first();
        let due = self.timers.first();
        match self.pass_first(network, until, place, due) {
            Turn::GoesOn => self.front_turn(network, until, place, due, note),
            turn => Ok(turn),
        }
    }

    /// Is nothing settled or pending, and has the end not come?
    fn is_calm(&self) -> bool
        ensures { IsTrue result → IsCalm self.now }
    {
        !self.pending && !self.ended && self.settled.is_empty()
    }

    /// Where nothing is settled or is to be settled of events, and the end has not come, time passes up to what comes
    /// first.
    #[inline(always)]
    fn pass_first(
        &mut self,
        network: &Network,
        until: u64,
        place: Option<DueAt>,
        due: Option<SlotTimer>,
    ) -> Turn
        requires may { MayTurn C.last_step C.reading M.stands network.now until self.old }
        requires room { HasRoom network.now self.old }
        requires firsts { AreFirsts self.old place due }
        ensures passed { IsPassed C.last_step C.reading M.stands network.now until self.old self.new result }
        ensures nearer { IsNoFarther network.now until self.old self.new result }
    {
        let time = least_of(place, due, until);
        if time <= self.time {
            return Turn::GoesOn;
        }
        self.pass_events(network);
        if !self.is_calm() {
            return Turn::GoesOn;
        }
        self.pass_on(network, time, until)
    }

    /// The first of three fronts goes on: of what is settled, of what is under way, and of the timers. Their ranks tell
    /// which it is. Where all are of a later time, this passes.
    #[inline(always)]
    fn front_turn(
        &mut self,
        network: &Network,
        until: u64,
        place: Option<DueAt>,
        due: Option<SlotTimer>,
        note: &mut PlainNote,
    ) -> Result<Turn, OutOfMemory>
        requires may { MayTurn C.last_step C.reading M.stands network.now until self.old }
        requires room { HasRoom network.now self.old }
        requires firsts { AreFirsts self.old place due }
        ensures kept { IsKept C.last_step C.reading M.stands network.now self.old self.new (given_in result note.new) }
        ensures turns { IfOk result (TurnsTo C.reading M.stands network.now until self.old self.new note.new) }
        ensures err { OnErr result (self.new.time < until) }
    {
        let source = self.source_by(network, until, place, due);
        if self.has_first(&source) {
            return self.give_next(network, note);
        }
        if let Source::Later(time) = source {
            return Ok(self.pass_on(network, time, until));
        }
        self.work_turn(network, source, note)
    }

    /// Takes room for two more records that are settled, for which there are numbers, and for what a record launches.
    fn make_places(&mut self, network: &Network) -> Result<(), OutOfMemory>
        requires few { length network.now.link < 2 ^ 32 }
        ensures same { self.new ≡ record self.old { under_way = self.new.under_way; settled = self.new.settled } }
        ensures entries { self.new.under_way.entries ≡ self.old.under_way.entries }
        ensures items { self.new.settled.items ≡ self.old.settled.items }
        ensures room { OnOk result (HasRoom network.now self.new) }
    {
        let coming = self.settled.len() as u64;
        if self.given >= (u64::MAX - 2).saturating_sub(coming) {
            return Err(OutOfMemory);
        }
        if self.settled.capacity() - self.settled.len() < 2 && self.settled.reserve(2).is_err() {
            return Err(OutOfMemory);
        }
        let more = network.link.as_slice().len() + 1;
        if self.under_way.room() < more && self.under_way.reserve(more).is_err() {
            return Err(OutOfMemory);
        }
        Ok(())
    }

    /// Is something settled, of which the first is of no higher rank than the source?
    fn has_first(&self, source: &Source) -> bool
        ensures yes { IsTrue result → SettledFirst self.now.settled.items source.now }
        ensures no { result ≡ false → SourceFirst self.now.settled.items source.now }
    {
        let Some(first) = self.settled.front() else {
            return false;
        };
        rank_of(first) <= source.rank()
    }

    /// Time passes, as nothing is under way before this time.
    fn pass_on(&mut self, network: &Network, time: u64, until: u64) -> Turn
        requires may { MayTurn C.last_step C.reading M.stands network.now until self.old }
        requires later { self.old.time < time }
        requires within { time ≤ until }
        requires nothing { HasNothingBefore C.reading M.stands network.now self.old (time ∷ []) }
        requires empty { self.old.settled.items ≡ [] }
        ensures passed { IsPassed C.last_step C.reading M.stands network.now until self.old self.new result }
        ensures nears { Nears network.now until self.old self.new result }
    {
        if self.ended || time > LAST {
            return Turn::Ends;
        }
        self.pass_to(time);
        if time < until {
            Turn::GoesOn
        } else {
            Turn::Ends
        }
    }
}

impl<C: Clock, M: Machine + Drop> State<C, M> {
    ghost use Rattle.drift_world.specs.Sound.{IsSound};
    ghost use Rattle.net_plan.specs.declared.network.Network.{Network as NetworkOf};
    ghost use Rattle.world_law.specs.world.Moves.{NothingBefore, StandsAt};

    /// Time passes, where nothing is under way before.
    fn pass_to(&mut self, time: u64)
        requires later { self.old.time < time }
        requires limit { time ≤ 2 ^ 60 }
        requires none { self.old.settled.items ≡ [] }
        requires open { self.old.ended ≡ false }
        ensures sound { (network : NetworkOf) → IsSound C.last_step network self.old
            → IsSound C.last_step network self.new }
        ensures stands { (network : NetworkOf) (s : Scenario) (notes : List NoteOf)
            → Stands C.reading (keeps M.stands) s (world_of network self.old) notes
            → NothingBefore (keeps M.stands) s (world_of network self.old) (time ∷ [])
            → StandsAt C.reading (keeps M.stands) s (world_of network self.new) notes (time ∷ []) }
        ensures same { self.new ≡ record self.old { time = time; early = true } }
    {
        self.time = time;
        self.early = true;
    }
}
