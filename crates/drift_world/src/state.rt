ghost use Rattle.std.specs.Prelude.{if◌then◌else◌, ◌++◌, ◌+◌, ◌<◌, ◌↔◌, ◌∷◌, ◌≡◌, ◌≤◌, IfOk, List, OnErr, OnOk};
ghost use Rattle.std.specs.Prelude.{Some, [], false, length, pos, slice_get, true, unsigned_abs, ℕ};
ghost use Rattle.{net_plan.specs.declared.network.Network.Network, run_law.specs.declared.note.Note.Note};

use device_rules::frames::MadeFrame;
use device_rules::is_parent_of;
use drift_clock::Clock;
use net_plan::{DeviceId, Event, LinkId, Network, Way, What};
use run_law::{Machine, NoteBody};
use std::collections::VecDeque;
use tte_units::Units;
use world_state::OutOfMemory;
use world_state::applying::{
    befall_machines, breaks_on, drop_waiting, ends, keep_befallen, set_broken, set_rate, set_way,
};
use world_state::contents::{Befallen, Content, Settled, WayState};
use world_state::event_notes::EventNote;
use world_state::frames::Frames;
use world_state::kept::Kept;
use world_state::queue::UnderWay;
use world_state::shelves::Shelves;
use world_state::timers::Timers;

/// The parts of a world that change.
#[derive(Drop)]
pub struct State<C: Clock, M: Machine + Drop> {
    /// The devices' clocks and what is kept of them, in the network's order, and whether they are broken.
    pub clocks: Vec<C>,
    pub machines: Vec<Kept<M>>,
    pub broken: Vec<bool>,
    /// The ways of the links, in the network's order.
    pub ups: Vec<WayState>,
    pub downs: Vec<WayState>,
    /// What is on the wires and at the ports.
    pub under_way: UnderWay<Content>,
    /// The frames that wait for their permanence.
    pub waiting: Frames,
    /// The frames that switches hold.
    pub stored: Shelves,
    /// Memory for the octets of a frame that a switch sends and still holds.
    pub spare: Vec<u8>,
    /// The last frame that was made as its sender makes it.
    pub made: MadeFrame,
    /// When the frames that wait at each device are permanent, and then when each device acts by itself.
    pub timers: Timers,
    /// Is nothing of the present instant but events worked off?
    pub early: bool,
    /// Did events befall whose outcomes are not settled?
    pub pending: bool,
    pub befell: Vec<Befallen>,
    /// The records of the present instant that are still to be given, in their order.
    pub settled: VecDeque<Settled>,
    /// The present time.
    pub time: u64,
    /// How many events were applied.
    pub lines: u64,
    /// How many records were given.
    pub given: u64,
    /// Has the end come?
    pub ended: bool,
    /// How many clocks have a record, since the end has come.
    pub shown: u32,
}

impl<C: Clock, M: Machine + Drop> State<C, M> {
    ghost use Rattle.drift_world.specs.{Following.Follows, Sound.{IsSized, IsSound}, Views.world_of};
    ghost use Rattle.net_plan.specs.declared.{event.Event.{Event as EventValue}, ids.DeviceId.{DeviceId as DeviceOf}};
    ghost use Rattle.{net_plan.specs.Belonging.IsOfNetwork, run_law.specs.scenario.Devices.is_parent_of};
    ghost use Rattle.run_law.specs.records.{Happenings.happenings, Order.IsIn};
    ghost use Rattle.{tte_units.specs.declared.rates.Ppb.Ppb, world_law.specs.steps.Steps.FitsWorld};
    ghost use Rattle.world_law.specs.source.{Agreeing.scenario, Applying.note_of_event};
    ghost use Rattle.world_law.specs.world.World.{Stands};
    ghost use Rattle.world_state.specs.{Applying.{IsElsewhere, SetsShort, clock_after}, Keeping.keeps};
    ghost use Rattle.world_state.specs.declared.contents.Waits.{Waits as WaitsValue};

    /// What the clock of a device reads at present.
    pub fn reading_of(&self, network: &Network, device: u32) -> u64
        requires sized { IsSized C.last_step network.now self.now }
        requires there { device < length network.now.device }
        ensures { (clock : C) × (slice_get self.now.clocks.items device ≡ Some clock)
            × (result ≡ C.reading clock self.now.time) }
    {
        self.clocks[device as usize]
            .read(Units::from_amount(self.time))
            .amount()
    }

    /// How the way is on which a device sends on a link.
    pub fn way_from(&self, network: &Network, device: DeviceId, link: LinkId) -> WayState
        requires sized { IsSized C.last_step network.now self.now }
        requires there { link.0 < length network.now.link }
        ensures { slice_get (if is_parent_of network.now device link then self.now.downs.items
            else self.now.ups.items) link.0 ≡ Some result }
    {
        if is_parent_of(network, device, link) {
            self.downs[link.0 as usize]
        } else {
            self.ups[link.0 as usize]
        }
    }

    /// An event befalls, before all else of the present instant. Its record is given.
    ///
    /// On an error nothing has changed.
    pub fn apply<'e>(
        &mut self,
        network: &Network,
        event: &'e Event,
    ) -> Result<EventNote<'e>, OutOfMemory>
        requires sound { IsSound C.last_step network.now self.old }
        requires time { event.now.time.0 ≡ pos self.old.time }
        requires early { self.old.early ≡ true }
        requires open { self.old.ended ≡ false }
        requires of_network { IsOfNetwork network.now event.now.what }
        requires slow { (device : DeviceOf) (rate : Ppb) → event.now.what ≡ What.Rate device rate
            → unsigned_abs rate.0 ≤ 1000000 }
        requires short { SetsShort event.now.what }
        ensures sound { IsSound C.last_step network.now self.new }
        ensures note { IfOk result (λ note. note ≡ record {
          number = self.old.given + 1;
          time = event.now.time;
          body = NoteBody.Event (self.old.lines + 1) event.now.what;
        }) }
        ensures still { (self.new.time ≡ self.old.time) × (self.new.early ≡ self.old.early) }
        ensures clocks { OnOk result ((device : DeviceOf) (clock : C)
            → slice_get self.old.clocks.items device.0 ≡ Some clock
            → slice_get self.new.clocks.items device.0
            ≡ Some (clock_after C.after_step device event.now.time event.now.what clock)) }
        ensures timers { self.new.timers ≡ self.old.timers }
        ensures others { OnOk result ((device : DeviceOf) → device.0 < length network.now.device
            → IsElsewhere event.now.what device
            → (slice_get self.new.clocks.items device.0 ≡ slice_get self.old.clocks.items device.0)
            × (slice_get self.new.machines.items device.0 ≡ slice_get self.old.machines.items device.0)
            × ((w : WaitsValue) → w.device.0 ≡ device.0 → IsIn w self.new.waiting.items
            ↔ IsIn w self.old.waiting.items)) }
        ensures stands { (f g : DeviceOf → ℕ → ℕ) (past : List EventValue) (notes : List Note)
            → (old : Stands C.reading (keeps M.stands) (scenario network.now f past) (world_of network.now self.old)
            notes)
            → Follows C.after_step C.reading network.now f g past event.now self.old
            → FitsWorld (scenario network.now f past) (happenings network.now notes) self.old.time event.now.what
            → IfOk result (λ note. (note ≡ note_of_event notes past event.now)
            × Stands C.reading (keeps M.stands) (scenario network.now g (past ++ event.now ∷ []))
            (world_of network.now self.new)
            (notes ++ note ∷ [])) }
        ensures err { OnErr result (world_of network.now self.new ≡ world_of network.now self.old) }
        ensures kept { OnErr result (self.new ≡ record self.old { befell = self.new.befell }) }
    {
        if self.given >= u64::MAX - 1 || self.lines == u64::MAX {
            return Err(OutOfMemory);
        }
        let on = breaks_on(self.befell.as_slice(), &event.what);
        keep_befallen(&mut self.befell, self.given + 1, &event.what)?;
        befall_machines(&mut self.machines, &event.what, on);
        set_broken(&mut self.broken, &event.what);
        set_way(&mut self.ups, Way::Up, &event.what);
        set_way(&mut self.downs, Way::Down, &event.what);
        drop_waiting(&mut self.waiting, &event.what);
        set_rate(&mut self.clocks, event.time, &event.what);
        self.pending = true;
        self.lines += 1;
        self.given += 1;
        self.ended = ends(&event.what);
        self.shown = 0;
        Ok(EventNote {
            number: self.given,
            line: self.lines,
            event,
        })
    }
}
