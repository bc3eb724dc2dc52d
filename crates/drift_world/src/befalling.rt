ghost use Rattle.std.specs.Prelude.{◌+◌, ◌∷◌, ◌≡◌, ◌≤◌, List, OnErr, OnOk, [], false, length, ℕ};
ghost use Rattle.drift_world.specs.{Nearing.{IsLess, distance}, Turns.{HasRoom, IsStep, MayWork}};
ghost use Rattle.drift_world.specs.{Wells.IsWell, declared.source.Source.Source};
ghost use Rattle.drift_world.specs.{Sound.IsSound, Stepping.ChangesOnly, Views.world_of};
ghost use Rattle.{run_law.specs.records.Order.behind, world_state.specs.Keeping.keeps};
ghost use Rattle.run_law.specs.{declared.note.Note.Note, scenario.Scenarios.Scenario};
ghost use Rattle.world_law.specs.world.{Moves.StandsAt, World.Stands};

use crate::state::State;
use device_rules::TellsKind;
use drift_clock::Clock;
use net_plan::Network;
use run_law::Machine;
use world_state::OutOfMemory;
use world_state::befalling::{make_room, settle_all};

impl<C: Clock, M: Machine + Drop> State<C, M> {
    /// The outcomes of the events of the present instant are settled, before all else of it.
    ///
    /// On an error nothing has changed: memory ran out, or there are no numbers for the records.
    fn settle_befallen(&mut self, network: &Network) -> Result<(), OutOfMemory>
        requires may { MayWork C.last_step C.reading M.stands network.now self.old (Source.Events) }
        ensures sound { IsSound C.last_step network.now self.new }
        ensures stands { (s : Scenario) (notes : List Note)
            → Stands C.reading (keeps M.stands) s (world_of network.now self.old) notes
            → OnOk result (StandsAt C.reading (keeps M.stands) s (world_of network.now self.new) notes
            (behind (self.old.time ∷ 2 ∷ []))) }
        ensures err { OnErr result (world_of network.now self.new ≡ world_of network.now self.old) }
        ensures done { OnOk result (self.new.pending ≡ false) }
        ensures others { (device : ℕ) → ChangesOnly device self.old self.new }
        ensures same { self.new ≡ record self.old {
          under_way = self.new.under_way;
          befell = self.new.befell;
          settled = self.new.settled;
          early = self.new.early;
          pending = self.new.pending;
        } }
        ensures no_more { OnOk result (length self.new.befell.items + length self.new.under_way.entries
            ≤ length self.old.befell.items + length self.old.under_way.entries) }
    {
        let more = self.befell.len();
        if more as u64 >= u64::MAX - self.given {
            return Err(OutOfMemory);
        }
        make_room(&mut self.under_way, &mut self.settled, more)?;
        settle_all(
            &mut self.befell,
            &mut self.under_way,
            &mut self.settled,
            network,
            self.broken.as_slice(),
            self.ups.as_slice(),
            self.time,
        );
        self.early = false;
        self.pending = false;
        Ok(())
    }
}

impl<C: Clock, M: TellsKind + Drop> State<C, M> {
    /// The events of the present instant are worked off where none of them has an outcome.
    #[inline(always)]
    pub fn pass_events(&mut self, network: &Network)
        requires well { IsWell C.last_step C.reading M.stands network.now self.old }
        requires room { HasRoom network.now self.old }
        ensures step { IsStep C.last_step C.reading M.stands network.now self.old self.new }
        ensures near { (until : ℕ) → distance network.now until self.new ≤ distance network.now until self.old }
        ensures same { self.new ≡ record self.old { early = self.new.early; pending = self.new.pending } }
    {
        if self.pending && self.befell.is_empty() {
            self.early = false;
            self.pending = false;
        }
    }

    /// The outcomes of the events of the instant are settled.
    #[inline(never)]
    pub fn settle(&mut self, network: &Network) -> Result<(), OutOfMemory>
        requires may { MayWork C.last_step C.reading M.stands network.now self.old (Source.Events) }
        ensures step { IsStep C.last_step C.reading M.stands network.now self.old self.new }
        ensures less { OnOk result (IsLess network.now self.old self.new) }
    {
        self.settle_befallen(network)
    }
}
