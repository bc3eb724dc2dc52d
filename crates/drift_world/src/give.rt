ghost use Rattle.std.specs.Prelude.{◌++◌, ◌+◌, ◌<◌, ◌^◌, ◌∷◌, ◌≡◌, ◌≤◌, All, IfNone, IfOk, IfSome, List, None, OnErr};
ghost use Rattle.std.specs.Prelude.{OnOk, Option, Some, [], length, ℕ};
ghost use Rattle.net_plan.specs.Ranges.{IsInRange};
ghost use Rattle.run_law.specs.{declared.note.Note.Note, records.Order.behind, scenario.Scenarios.Scenario};

use crate::next::Turn;
use crate::state::State;
use device_rules::TellsKind;
use drift_clock::Clock;
use net_plan::{DeviceId, Network};
use run_law::Machine;
use run_law::plain::{PlainBody, PlainKind, PlainNote};
use tte_units::Units;
use tte_units::frames::Pcf;
use world_state::OutOfMemory;
use world_state::contents::{HoldSpot, Settled, Timed};
use world_state::giving::{Giving, give_frame, make_room};
use world_state::sending::{put_on, sent_by};
use world_state::storing::{store, taker};
use world_state::waiting::{giver, waiter};

impl<C: Clock, M: Machine + Drop> State<C, M> {
    ghost use Rattle.net_plan.specs.declared.ids.DeviceId.{DeviceId as DeviceOf};
    ghost use Rattle.run_law.specs.records.{Happenings.happenings, Ranks.place_of};
    ghost use Rattle.tte_units.specs.Amount.{amount, units_of};
    ghost use Rattle.world_law.specs.{source.First.NoSourceBefore, world.{Moves.StandsAt, World.{Stands, note_of}}};
    ghost use Rattle.world_state.specs.{Frames.{room_of, waiter_of}, Shelves.{HasPlace, spot_of}, Storing.IsStoredBy};
    ghost use Rattle.world_state.specs.Giving.{ArrivedAt, CameBy, HasItsOctets, IsPutOn, IsYoung, changed_device};
    ghost use Rattle.world_state.specs.{Giving.{giver_of, wire_entry}, Sound.{AreBelow, AreUnderWay, IsShort}};
    ghost use Rattle.world_state.specs.{Keeping.keeps, declared.giving.Giving.{Giving as GivingValue}};
    ghost use Rattle.world_state.specs.{Views.settled_at, declared.contents.Settled.{Settled as SettledValue}};
    ghost use Rattle.drift_world.specs.{Giving.{AreLow, IsGivenOut, IsGiver, IsToGive}, Sound.{IsSized, IsSound}};
    ghost use Rattle.drift_world.specs.{Stepping.{ChangesOnly, IsOwn, IsRunning}, Views.world_of};
    ghost use Rattle.world_law.specs.steps.Turns.{IsLaunched, IsNext};

    /// The frame of a record that its device gives to links, or waits for.
    #[inline(always)]
    fn giving_by(
        &self,
        network: &Network,
        body: &PlainBody,
        frame: Option<Pcf>,
        number: u64,
    ) -> Option<Giving>
        requires sized { IsSized C.last_step network.now self.now }
        ensures some { IfSome result (λ g. IsGiver C.reading network.now self.now body.now frame number g) }
        ensures none { IfNone result ((device : DeviceOf) → giver_of body.now ≡ Some device
            → device.0 < length network.now.device → frame ≡ None) }
    {
        let device = giver(body)?;
        if device.0 as usize >= self.broken.len() {
            return None;
        }
        let frame = frame?;
        let reading = self.reading_of(network, device.0);
        Some(Giving {
            device,
            time: self.time,
            number,
            frame,
            reading,
            broken: self.broken[device.0 as usize],
        })
    }

    /// Puts on a wire what a record puts there.
    #[inline(always)]
    fn launch_wire(
        &mut self,
        network: &Network,
        body: &PlainBody,
        frame: Option<Pcf>,
        octets: Option<Timed>,
        number: u64,
    )
        requires sized { IsSized C.last_step network.now self.old }
        requires range { IsInRange network.now }
        requires room { 0 < self.old.under_way.room }
        requires ups { All IsShort self.old.ups.items }
        requires downs { All IsShort self.old.downs.items }
        ensures same { self.new ≡ record self.old { under_way = self.new.under_way } }
        ensures sent { IsPutOn
            (wire_entry network.now self.old.ups.items self.old.downs.items body.now frame octets self.old.time number)
            self.old.under_way.entries self.new.under_way.entries }
    {
        let entry = sent_by(
            network,
            self.ups.as_slice(),
            self.downs.as_slice(),
            body,
            frame,
            octets,
            self.time,
            number,
        );
        put_on(&mut self.under_way, entry);
    }

    /// Gives the frame of a record to ports and has it wait, as its device does.
    #[inline(always)]
    fn launch_frame(&mut self, network: &Network, body: &PlainBody, frame: Option<Pcf>, number: u64)
        requires sized { IsSized C.last_step network.now self.old }
        requires range { IsInRange network.now }
        requires by { CameBy (length network.now.link) body.now }
        requires young { IsYoung (amount network.now.dmax) body.now }
        requires room { length network.now.link ≤ self.old.under_way.room }
        requires capacity { IfSome (waiter_of body.now) (λ d. 0 < room_of self.old.waiting d.0) }
        requires ups { All IsShort self.old.ups.items }
        requires downs { All IsShort self.old.downs.items }
        requires low { AreLow C.reading self.old }
        ensures same { self.new ≡ record self.old { under_way = self.new.under_way; waiting = self.new.waiting } }
        ensures room { self.old.under_way.room ≤ self.new.under_way.room + length network.now.link }
        ensures sound { AreBelow number self.old.under_way.entries → AreUnderWay network.now self.old.under_way.entries
            → AreUnderWay network.now self.new.under_way.entries }
        ensures given { (giving : Option GivingValue)
            × IsGivenOut C.reading network.now self.old self.new body.now frame number giving }
    {
        let giving = self.giving_by(network, body, frame, number);
        give_frame(
            &mut self.under_way,
            &mut self.waiting,
            network,
            self.ups.as_slice(),
            self.downs.as_slice(),
            body,
            giving,
        );
    }

    /// Puts on a wire what a record puts there, or stores what a switch took by it.
    #[inline(always)]
    fn launch_octets(
        &mut self,
        network: &Network,
        body: &PlainBody,
        frame: Option<Pcf>,
        octets: Option<Timed>,
        number: u64,
    )
        requires sized { IsSized C.last_step network.now self.old }
        requires range { IsInRange network.now }
        requires room { 0 < self.old.under_way.room }
        requires place { IfSome (spot_of body.now) (HasPlace self.old.stored) }
        requires ups { All IsShort self.old.ups.items }
        requires downs { All IsShort self.old.downs.items }
        ensures same { self.new ≡ record self.old { under_way = self.new.under_way; stored = self.new.stored } }
        ensures sent { IsPutOn
            (wire_entry network.now self.old.ups.items self.old.downs.items body.now frame octets self.old.time number)
            self.old.under_way.entries self.new.under_way.entries }
        ensures stored { IsStoredBy body.now octets number self.old.stored.items self.new.stored.items }
    {
        if let PlainKind::Accepted { device, vl, .. } = &body.kind {
            let spot = HoldSpot {
                device: *device,
                vl: *vl,
            };
            store(&mut self.stored, spot, octets, number);
        } else {
            self.launch_wire(network, body, frame, octets, number);
        }
    }

    /// Gives a record its number, which is not put in, or was taken out, and launches what it does: nothing that is
    /// settled or to come stands before it.
    #[inline(always)]
    pub(crate) fn give_first(&mut self, network: &Network, first: Settled, note: &mut PlainNote)
        requires sound { IsSound C.last_step network.now self.old }
        requires range { IsInRange network.now }
        requires next { IsToGive C.reading network.now self.old first }
        requires octets { HasItsOctets first.body first.octets }
        requires number { self.old.given + 1 < 2 ^ 64 }
        requires room { length network.now.link < self.old.under_way.room }
        requires capacity { IfSome (waiter_of first.body) (λ d. 0 < room_of self.old.waiting d.0) }
        requires place { IfSome (spot_of first.body) (HasPlace self.old.stored) }
        ensures note { note.new ≡ record {
          number = self.old.given + 1;
          time = units_of self.old.time;
          body = first.body;
        } }
        ensures same { self.new ≡ record self.old {
          under_way = self.new.under_way;
          waiting = self.new.waiting;
          stored = self.new.stored;
          given = self.old.given + 1;
        } }
        ensures sound { IsSound C.last_step network.now self.new }
        ensures launched { (s : Scenario) (notes : List Note)
            → IsNext C.reading s notes (world_of network.now self.old) first.body
            → IsOwn s.network network.now self.old.time (happenings s.network notes) (Some first)
            → IsLaunched s notes first.body (world_of network.now self.old) (world_of network.now self.new) }
        ensures arrived { ArrivedAt (length network.now.device) note.new.body }
        ensures others { ChangesOnly (changed_device first.body) self.old self.new }
    {
        let number = self.given + 1;
        self.launch_frame(network, &first.body, first.frame, number);
        let Settled {
            body,
            frame,
            octets,
        } = first;
        self.launch_octets(network, &body, frame, octets, number);
        self.given = number;
        note.number = number;
        note.time = Units::from_amount(self.time);
        note.body = body;
    }

    /// The device at which the frame of the first settled record may wait.
    fn first_waiter(&self) -> Option<DeviceId>
        ensures { (first : SettledValue) (rest : List SettledValue) → self.now.settled.items ≡ first ∷ rest
            → result ≡ waiter_of first.body }
    {
        match self.settled.front() {
            Some(first) => waiter(&first.body),
            None => None,
        }
    }

    /// Where the frame stands that a switch takes by the first settled record.
    fn first_taker(&self) -> Option<HoldSpot>
        ensures { (first : SettledValue) (rest : List SettledValue) → self.now.settled.items ≡ first ∷ rest
            → result ≡ spot_of first.body }
    {
        match self.settled.front() {
            Some(first) => taker(&first.body),
            None => None,
        }
    }

    /// The first record that is settled is given, with the next number: what it launches is under way, or waits.
    ///
    /// On an error nothing has changed.
    fn give(&mut self, network: &Network, note: &mut PlainNote) -> Result<(), OutOfMemory>
        requires sound { IsSound C.last_step network.now self.old }
        requires range { IsInRange network.now }
        requires some { 0 < length self.old.settled.items }
        requires running { IsRunning C.reading M.stands network.now self.old }
        ensures sound { IsSound C.last_step network.now self.new }
        ensures same { self.new ≡ record self.old {
          under_way = self.new.under_way;
          waiting = self.new.waiting;
          stored = self.new.stored;
          settled = self.new.settled;
          given = self.new.given;
        } }
        ensures stands { (s : Scenario) (notes : List Note) (first : SettledValue) (rest : List SettledValue)
            → self.old.settled.items ≡ first ∷ rest
            → (old : Stands C.reading (keeps M.stands) s (world_of network.now self.old) notes)
            → NoSourceBefore s (happenings s.network notes) old.frontier
            (place_of (settled_at network.now self.old.time first))
            → OnOk result ((note.new ≡ note_of notes (settled_at network.now self.old.time first))
            × StandsAt C.reading (keeps M.stands) s (world_of network.now self.new) (notes ++ note.new ∷ [])
            (behind (place_of (settled_at network.now self.old.time first)))) }
        ensures err { OnErr result (world_of network.now self.new ≡ world_of network.now self.old) }
        ensures given { OnOk result (self.new.given ≡ self.old.given + 1) }
        ensures arrived { OnOk result (ArrivedAt (length network.now.device) note.new.body) }
        ensures others { OnOk result (ChangesOnly (changed_device note.new.body) self.old self.new) }
        ensures unmoved { OnErr result ((n : ℕ) → ChangesOnly n self.old self.new) }
    {
        let device = self.first_waiter();
        let spot = self.first_taker();
        if let Err(error) = make_room(
            &mut self.under_way,
            &mut self.waiting,
            &mut self.stored,
            network,
            device,
            spot,
        ) {
            return Err(error);
        }
        let first = self.settled.pop_front().unwrap();
        self.give_first(network, first, note);
        Ok(())
    }
}

impl<C: Clock, M: TellsKind + Drop> State<C, M> {
    ghost use Rattle.drift_world.specs.{Sourcing.AreTimed, Stepping.{ChangesOnly, MaySetTimers}, Wells.IsWell};
    ghost use Rattle.drift_world.specs.{Turns.{GivesAt, IsKept, MayGive, given_in}, declared.state.State.{State as StateOf}};
    ghost use Rattle.world_state.specs.Giving.{ArrivedAt, changed_device};

    /// The first that is settled is given: nothing is to come before it.
    pub fn give_next(
        &mut self,
        network: &Network,
        note: &mut PlainNote,
    ) -> Result<Turn, OutOfMemory>
        requires well { IsWell C.last_step C.reading M.stands network.now self.old }
        requires first { MayGive C.reading M.stands network.now self.old }
        ensures kept { IsKept C.last_step C.reading M.stands network.now self.old self.new (given_in result note.new) }
        ensures says { IfOk result (GivesAt self.old self.new note.new) }
        ensures err { OnErr result (self.new.time ≡ self.old.time) }
    {
        match self.give(network, note) {
            Ok(()) => {
                self.rekey_after(network, note.body());
                Ok(Turn::Gives)
            }
            Err(error) => Err(error),
        }
    }

    /// A frame that arrived may wait at its device: the timers of the device are set.
    fn rekey_after(&mut self, network: &Network, body: &PlainBody)
        requires may { MaySetTimers C.last_step C.reading M.stands network.now self.old }
        requires arrived { ArrivedAt (length network.now.device) body.now }
        ensures same { self.new ≡ record self.old { timers = self.new.timers } }
        ensures timed { (before : StateOf C M) → AreTimed C.reading M.stands network.now before
            → ChangesOnly (changed_device body.now) before self.old → self.old.machines ≡ before.machines
            → self.old.timers ≡ before.timers
            → AreTimed C.reading M.stands network.now self.new }
    {
        if let PlainKind::Arrived { device, .. } = &body.kind {
            self.rekey_ripe(network, device.0);
        }
    }
}
