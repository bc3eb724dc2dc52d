ghost use Rattle.std.specs.Prelude.{◌+◌, ◌-◌, ◌<ℤ◌, ◌<◌, ◌^◌, ◌≡◌, ◌≤ℤ◌, ◌≤◌, IfOk, IfSome, IsFalse, IsSomeAnd, IsTrue};
ghost use Rattle.std.specs.Prelude.{OnErr, OnOk, Some, false, length, slice_get, true, vec_capacity, ℕ};
ghost use Rattle.std.specs.VecDeque.{deque_capacity, deque_len};
ghost use Rattle.drift_world.specs.Acting.{ActGives, ActsOn, AreAbove, IsDueAt, IsLeft};
ghost use Rattle.drift_world.specs.{Parts.{part_place, part_rank}, Showing.IsOf, Sound.{IsSized, IsSound}};
ghost use Rattle.drift_world.specs.Stepping.{IsActTimed, IsAt, MayRekey, SetsOnly};
ghost use Rattle.drift_world.specs.Turns.{IsKept, MayWork, WorkSays, given_in};
ghost use Rattle.drift_world.specs.declared.{part.{Part.{Part as PartOf}, ToDo.TheVariants.Now}, source.Source.Source};
ghost use Rattle.net_plan.specs.Ranges.{IsInRange};
ghost use Rattle.run_law.specs.{records.Ranks.rank, scenario.Scenarios.Scenario};
ghost use Rattle.schedule_tables.specs.{Entries.IsEntry, declared.entry.Entry.{Entry as EntryValue}};
ghost use Rattle.{world_law.specs.world.Calls.moment_of, world_state.specs.Acting.{AreOutcomes, HasItsRow, IsDispatched}};

use crate::next::Turn;
use crate::part::{Part, ToDo, is_due};
use crate::state::State;
use device_rules::TellsKind;
use drift_clock::Clock;
use net_plan::{DeviceId, Network, RowId};
use run_law::plain::{PlainNote, Rank};
use run_law::{Act, Moment};
use schedule_tables::entry_of;
use std::mem::replace;
use sync_state::State as Standing;
use tte_units::Units;
use world_state::OutOfMemory;
use world_state::changes::put_change;
use world_state::contents::Settled;
use world_state::hands::{at_hand, dispatched};
use world_state::outcomes::{Outcomes, corrected, emitted, put_both, sent};
use world_state::packets::MOST_OCTETS;
use world_state::settled::rank_of;

/// Takes the memory out.
fn taken(room: &mut Vec<u8>) -> Vec<u8>
    ensures { vec_capacity result ≡ vec_capacity room.old }
{
    let alloc = *room.allocator();
    replace(room, Vec::new(alloc))
}

/// Does the first record of an act stand where it is done?
fn is_at_source(outcomes: &Outcomes) -> bool
    ensures yes { IsTrue result → IsSomeAnd outcomes.now.first (λ z. rank z.body ≤ 6) }
    ensures no { IsFalse result → IfSome outcomes.now.first (λ z. 6 < rank z.body) }
{
    match &outcomes.first {
        Some(first) => rank_of(first) < Rank::State.number(),
        None => false,
    }
}

/// Is the reading that is due, if there is one, reached?
fn is_reached(due: Option<Units>, reading: Units) -> bool
    ensures reached { IsTrue result → IsSomeAnd due (λ at. at.0 ≤ℤ reading.0) }
    ensures later { IsFalse result → IfSome due (λ at. reading.0 <ℤ at.0) }
{
    match due {
        Some(at) => at.0 <= reading.0,
        None => false,
    }
}

impl<C: Clock, M: TellsKind + Drop> State<C, M> {
    /// The present instant, as the device meets it.
    fn moment_at(&self, network: &Network, device: DeviceId) -> Moment
        requires sized { IsSized C.last_step network.now self.now }
        requires there { device.0 < length network.now.device }
        ensures { (s : Scenario) → IsOf C.reading s network.now self.now → result ≡ moment_of s device self.now.time }
    {
        let time = Units::from_amount(self.time);
        Moment {
            time,
            reading: self.clocks[device.0 as usize].read(time),
        }
    }

    /// The record of a row's dispatch, where the device has its frame at hand.
    fn dispatched_at(
        &self,
        network: &Network,
        device: DeviceId,
        row: RowId,
        cycle: u32,
        room: &mut Vec<u8>,
    ) -> Option<Settled>
        requires sized { IsSized C.last_step network.now self.now }
        requires range { IsInRange network.now }
        requires row { row.0 < length network.now.row }
        requires room { 1514 ≤ vec_capacity room.old }
        ensures { (s : Scenario) (entry : EntryValue) → IsOf C.reading s network.now self.now
            → IsEntry network.now row.0 entry → IsDispatched s self.now.stored.items self.now.time device entry cycle
            result }
    {
        let entry = entry_of(network, row);
        let way = self.way_from(network, device, entry.row.link);
        let hand = at_hand(&self.stored, device, &entry, cycle, room)?;
        Some(dispatched(way.cut, device, &entry, cycle, hand))
    }

    /// The records of an act of the device that was in this state, and has this adjustment then. The first is the next
    /// to be given, if it stands where it is done.
    #[inline(always)]
    fn outcomes_of(
        &self,
        network: &Network,
        device: DeviceId,
        was: Standing,
        adjustment: Units,
        act: Act,
        room: &mut Vec<u8>,
    ) -> Outcomes
        requires sized { IsSized C.last_step network.now self.now }
        requires range { IsInRange network.now }
        requires row { HasItsRow (length network.now.row) act }
        requires room { 1514 ≤ vec_capacity room.old }
        requires numbers { self.now.given + 1 < 2 ^ 64 }
        ensures { (s : Scenario) → IsOf C.reading s network.now self.now
            → AreOutcomes s self.now.stored.items self.now.time (self.now.given + 1) device was adjustment act result }
    {
        let number = self.given + 1;
        match act {
            Act::Send(frame) => sent(device, frame),
            Act::Emit(frame, heard) => emitted(network, number, device, frame, heard),
            Act::Correct(cycle, verdict) => {
                corrected(number, device, was, cycle, adjustment, verdict)
            }
            Act::Dispatch(row, cycle) => Outcomes {
                first: self.dispatched_at(network, device, row, cycle, room),
                second: None,
            },
        }
    }

    /// What the device has to do at this moment.
    fn left_to_do(&self, network: &Network, device: DeviceId, moment: Moment) -> ToDo
        requires sized { IsSized C.last_step network.now self.now }
        requires there { device.0 < length network.now.device }
        requires moment { (s : Scenario) → IsOf C.reading s network.now self.now
            → moment ≡ moment_of s device self.now.time }
        ensures { IsLeft C.reading M.stands network.now self.now device result }
    {
        let machine = &self.machines[device.0 as usize];
        let due = machine.due();
        if is_reached(due, moment.reading) {
            ToDo::Now(Part::of(machine.first_kind(moment.reading)))
        } else {
            ToDo::Next(due)
        }
    }

    /// The device does the first of all that is due, which is of the part. Where its record stands where it was done, this
    /// is given: is it?
    #[inline(always)]
    fn act_once(
        &mut self,
        network: &Network,
        part: Part,
        device: DeviceId,
        moment: Moment,
        note: &mut PlainNote,
    ) -> bool
        requires sound { IsSound C.last_step network.now self.old }
        requires range { IsInRange network.now }
        requires there { device.0 < length network.now.device }
        requires moment { (s : Scenario) → IsOf C.reading s network.now self.old
            → moment ≡ moment_of s device self.old.time }
        requires room { deque_len self.old.settled + 2 ≤ deque_capacity self.old.settled }
        requires launches { length network.now.link < self.old.under_way.room }
        requires spare { 1514 ≤ vec_capacity self.old.spare }
        requires numbers { self.old.given + 1 < 2 ^ 64 }
        requires due { IsDueAt C.reading M.stands network.now self.old part device }
        requires above { AreAbove (part_rank part) self.old }
        requires comes { IsAt C.reading M.stands network.now self.old (part_place part self.old.time device) }
        ensures sound { IsSound C.last_step network.now self.new }
        ensures machines { (i : ℕ) → (i ≡ device.0 → ⊥)
            → slice_get self.new.machines.items i ≡ slice_get self.old.machines.items i }
        ensures gives { result ≡ true → ActGives C.reading M.stands network.now part device self.old self.new note.new }
        ensures goes_on { result ≡ false → ActsOn C.reading M.stands network.now part device self.old self.new }
    {
        let index = device.0 as usize;
        let was = self.machines[index].shown();
        let Some(act) = self.machines[index].act(moment) else {
            return false;
        };
        let is = self.machines[index].shown();
        let mut room = taken(&mut self.spare);
        let outcomes = self.outcomes_of(network, device, was.state, is.adjustment, act, &mut room);
        self.spare = room;
        self.early = false;
        if !is_at_source(&outcomes) {
            put_both(&mut self.settled, outcomes);
            return false;
        }
        let Outcomes { first, second } = outcomes;
        put_change(&mut self.settled, second);
        let own = first.unwrap();
        self.give_first(network, own, note);
        true
    }

    /// Makes place for two more records, for which there are numbers, and takes memory for the octets of a frame.
    ///
    /// On an error nothing is done.
    fn reserve_two(&mut self) -> Result<(), OutOfMemory>
        ensures same { self.new ≡ record self.old { settled = self.new.settled; spare = self.new.spare } }
        ensures items { self.new.settled.items ≡ self.old.settled.items }
        ensures room { OnOk result (deque_len self.new.settled + 2 ≤ deque_capacity self.new.settled) }
        ensures numbers { OnOk result (self.old.given + length self.old.settled.items + 2 < 2 ^ 64 - 1) }
        ensures spare { OnOk result (1514 ≤ vec_capacity self.new.spare) }
    {
        let most = u64::MAX - 2;
        if self.given >= most {
            return Err(OutOfMemory);
        }
        if self.settled.len() as u64 >= most - self.given {
            return Err(OutOfMemory);
        }
        if self.spare.capacity() < MOST_OCTETS && self.spare.reserve(MOST_OCTETS).is_err() {
            return Err(OutOfMemory);
        }
        if self.settled.capacity() - self.settled.len() < 2 && self.settled.reserve(2).is_err() {
            return Err(OutOfMemory);
        }
        Ok(())
    }

    /// Sets the timer of the device for what it has left to do.
    fn put_off(&mut self, network: &Network, device: DeviceId, left: ToDo)
        requires may { MayRekey C.last_step C.reading M.stands network.now self.old device }
        requires left { IsLeft C.reading M.stands network.now self.old device left }
        ensures sets { SetsOnly (λ slot. slot ≡ length network.now.device + device.0) self.old self.new }
        ensures timed { IsActTimed C.reading M.stands network.now self.new.timers self.new device }
        ensures put { (other : PartOf) → left ≡ Now other → slice_get self.new.timers
            (length network.now.device + device.0) ≡ Some (record { time = self.new.time; rank = part_rank other }) }
    {
        match left {
            ToDo::Now(part) => self.defer(network, device.0, part),
            ToDo::Next(due) => self.rekey_act_at(network, device.0, due),
        }
    }

    /// The device does what is due of the part at the present instant, up to the first act whose record stands where it
    /// was done: this is given. What is due of a later part is put off behind what other devices do.
    ///
    /// On an error it may have done some of it, and more is due.
    #[inline(never)]
    pub fn acting_turn(
        &mut self,
        network: &Network,
        part: Part,
        device: DeviceId,
        note: &mut PlainNote,
    ) -> Result<Turn, OutOfMemory>
        requires may { MayWork C.last_step C.reading M.stands network.now self.old (Source.Act part device) }
        ensures kept { IsKept C.last_step C.reading M.stands network.now self.old self.new (given_in result note.new) }
        ensures says { IfOk result (WorkSays network.now self.old self.new note.new) }
        ensures err { OnErr result (self.new.time ≡ self.old.time) }
    {
        let moment = self.moment_at(network, device);
        let mut left = self.left_to_do(network, device, moment);
        let mut acts: u32 = 0;
        'acts: loop {
            if !is_due(left, part) {
                self.put_off(network, device, left);
                return Ok(Turn::GoesOn);
            }
            match self.reserve_two() {
                Ok(()) => (),
                Err(error) => {
                    self.rekey_act(network, device.0);
                    return Err(error);
                }
            }
            if self.act_once(network, part, device, moment, note) {
                self.rekey_act(network, device.0);
                return Ok(Turn::Gives);
            }
            left = self.left_to_do(network, device, moment);
            acts += 1;
        }
    }
}
