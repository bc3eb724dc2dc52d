ghost use Rattle.std.specs.Prelude.{◌+◌, ◌<◌, ◌≡◌, None, Some, false, length, true, ℕ};
ghost use Rattle.drift_world.specs.{Sound.IsSound, Stepping.{ChangesOnly, TurnsPast}};
ghost use Rattle.drift_world.specs.Turns.{IsKept, MayWork, WorkSays, noted};
ghost use Rattle.drift_world.specs.declared.source.Source.{Source as SourceOf};
ghost use Rattle.{net_plan.specs.Ranges.IsInRange, run_law.specs.records.Ranks.rank};
ghost use Rattle.world_law.specs.world.World.{clock_place};

use crate::next::Turn;
use crate::state::State;
use device_rules::TellsKind;
use drift_clock::Clock;
use net_plan::{DeviceId, Network};
use run_law::Machine;
use run_law::plain::{PlainBody, PlainKind, PlainNote};
use tte_units::Units;
use world_state::contents::Settled;

impl<C: Clock, M: Machine + Drop> State<C, M> {
    /// The clock of the next device is shown, at the end. The record of it is answered, which is to be put in among
    /// what is settled.
    fn show_clock(&mut self, network: &Network, device: DeviceId) -> Settled
        requires sound { IsSound C.last_step network.now self.old }
        requires range { IsInRange network.now }
        requires next { device.0 ≡ self.old.shown }
        requires more { device.0 < length network.now.device }
        ensures sound { IsSound C.last_step network.now self.new }
        ensures rank { rank result.body ≡ 14 }
        ensures turns { self.old.ended ≡ true → TurnsPast C.reading M.stands network.now self.old self.new
            (clock_place self.old.time device) (Some result) None }
        ensures others { (n : ℕ) → ChangesOnly n self.old self.new }
        ensures same { self.new ≡ record self.old { early = false; shown = self.old.shown + 1 } }
    {
        let index = device.0 as usize;
        let reading = self.clocks[index].read(Units::from_amount(self.time));
        let machine = &self.machines[index];
        let kind = PlainKind::Clock {
            device,
            reading,
            adjustment: machine.adjustment(),
            state: machine.state(),
        };
        self.early = false;
        self.shown += 1;
        Settled {
            body: PlainBody { kind },
            frame: None,
            octets: None,
        }
    }
}

impl<C: Clock, M: TellsKind + Drop> State<C, M> {
    /// The clock of the device is shown: its record is given, as it stands at the place of the source.
    #[inline(never)]
    pub fn show(&mut self, network: &Network, device: DeviceId, note: &mut PlainNote) -> Turn
        requires may { MayWork C.last_step C.reading M.stands network.now self.old (SourceOf.Clock device) }
        ensures kept { IsKept C.last_step C.reading M.stands network.now self.old self.new (noted result note.new) }
        ensures says { WorkSays network.now self.old self.new note.new result }
    {
        let record = self.show_clock(network, device);
        self.give_first(network, record, note);
        Turn::Gives
    }
}
