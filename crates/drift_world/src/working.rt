ghost use Rattle.std.specs.Prelude.{◌≡◌, IfOk, OnErr};

use crate::next::Turn;
use crate::source::Source;
use crate::state::State;
use device_rules::TellsKind;
use drift_clock::Clock;
use net_plan::Network;
use run_law::plain::PlainNote;
use world_state::OutOfMemory;

impl<C: Clock, M: TellsKind + Drop> State<C, M> {
    ghost use Rattle.drift_world.specs.Turns.{IsKept, IsNow, MayWork, WorkSays, given_in};

    /// The source of the present instant that comes first is worked off. A record that stands where it does is given.
    #[inline(always)]
    pub fn work_turn(
        &mut self,
        network: &Network,
        source: Source,
        note: &mut PlainNote,
    ) -> Result<Turn, OutOfMemory>
        requires may { MayWork C.last_step C.reading M.stands network.now self.old source }
        requires present { IsNow source }
        ensures kept { IsKept C.last_step C.reading M.stands network.now self.old self.new (given_in result note.new) }
        ensures says { IfOk result (WorkSays network.now self.old self.new note.new) }
        ensures err { OnErr result (self.new.time ≡ self.old.time) }
    {
        match source {
            Source::Arrival(place) => self.arrival_turn(network, place, note),
            Source::Departure(place) => Ok(self.departure_turn(network, place, note)),
            Source::Act(part, device) => self.acting_turn(network, part, device, note),
            Source::Events => {
                if let Err(error) = self.settle(network) {
                    return Err(error);
                }
                Ok(Turn::GoesOn)
            }
            Source::Ripening(one) => Ok(self.ripening_turn(network, one, note)),
            Source::Clock(device) => Ok(self.show(network, device, note)),
            Source::Later(_) => Ok(Turn::GoesOn),
        }
    }
}
