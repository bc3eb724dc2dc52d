ghost use Rattle.std.specs.Prelude.{◌+◌, ◌<◌, ◌≡◌, ◌≤◌, IfOk, None, OnErr, Some, false, length};
ghost use Rattle.drift_world.specs.{Sound.IsSound, Stepping.{ChangesOnly, ToldBefore, TurnsPast}, Turns.IsKept};
ghost use Rattle.drift_world.specs.Turns.{MayWork};
ghost use Rattle.drift_world.specs.{Turns.{WorkSays, given_in, noted}, declared.source.Source.{Source as SourceOf}};
ghost use Rattle.run_law.specs.records.Ranks.{rank};
ghost use Rattle.world_state.specs.{Frames.room_of, Giving.{HasItsOctets, changed_device}, queue.Places.numbers_of};
ghost use Rattle.world_law.specs.world.World.{is_at_source};

use crate::next::Turn;
use crate::state::State;
use device_rules::TellsKind;
use drift_clock::Clock;
use net_plan::{DeviceId, LinkId, Network};
use run_law::Moment;
use run_law::plain::PlainNote;
use tte_units::Units;
use world_state::OutOfMemory;
use world_state::hearing::{Before, Heard, Hearing, arrived, hear_signal, take_wire};
use world_state::queue::DueAt;
use world_state::settled::put_in;

/// What has come to a device, seen as the record of it, and what the device had to do before.
struct Reception {
    heard: Heard,
    before: Before,
}

impl<C: Clock, M: TellsKind + Drop> State<C, M> {
    /// What is on a wire and the first of all that is under way arrives: its device hears it. It is answered,
    /// seen as the record of it, which is to be put in among what is settled.
    #[inline(always)]
    fn hear_wire(&mut self, network: &Network, place: DueAt) -> Reception
        requires may { MayWork C.last_step C.reading M.stands network.now self.old (SourceOf.Arrival place) }
        ensures sound { IsSound C.last_step network.now self.new }
        ensures octets { HasItsOctets result.heard.body result.heard.octets }
        ensures device { rank result.heard.body ≡ 2 → changed_device result.heard.body ≡ place.device }
        ensures late { (rank result.heard.body ≡ 2 → ⊥) → is_at_source result.heard.body ≡ false }
        ensures turns { TurnsPast C.reading M.stands network.now self.old self.new (numbers_of place)
            (Some result.heard) None }
        ensures before { ToldBefore M.stands self.old self.new place.device result.before }
        ensures others { ChangesOnly place.device self.old self.new }
        ensures same { self.new ≡ record self.old {
          machines = self.new.machines;
          under_way = self.new.under_way;
          made = self.new.made;
          early = false;
        } }
        ensures shorter { length self.old.under_way.entries ≡ length self.new.under_way.entries + 1 }
        ensures room { self.old.under_way.room ≤ self.new.under_way.room }
    {
        let signal = take_wire(&mut self.under_way, place);
        let index = place.device as usize;
        let time = Units::from_amount(self.time);
        let moment = Moment {
            time,
            reading: self.clocks[index].read(time),
        };
        let link = LinkId(place.link);
        let machine = &mut self.machines[index];
        let hearing = hear_signal(machine, network, moment, link, &signal, &mut self.made);
        let Hearing { arrival, before } = hearing;
        self.early = false;
        let heard = arrived(place, arrival, signal);
        Reception { heard, before }
    }
}

impl<C: Clock, M: TellsKind + Drop> State<C, M> {
    /// What is first on a wire arrives. On an error it has not: there is no memory for a frame that waits at its
    /// device.
    #[inline(always)]
    pub fn arrival_turn(
        &mut self,
        network: &Network,
        place: DueAt,
        note: &mut PlainNote,
    ) -> Result<Turn, OutOfMemory>
        requires may { MayWork C.last_step C.reading M.stands network.now self.old (SourceOf.Arrival place) }
        ensures kept { IsKept C.last_step C.reading M.stands network.now self.old self.new (given_in result note.new) }
        ensures says { IfOk result (WorkSays network.now self.old self.new note.new) }
        ensures err { OnErr result (self.new.time ≡ self.old.time) }
    {
        if self.waiting.reserve(DeviceId(place.device)).is_err() {
            return Err(OutOfMemory);
        }
        Ok(self.hear_turn(network, place, note))
    }

    /// What is first on a wire arrives. Where it is a control frame that its device takes, its record is given: it
    /// stands at the place of the source.
    #[inline(always)]
    fn hear_turn(&mut self, network: &Network, place: DueAt, note: &mut PlainNote) -> Turn
        requires may { MayWork C.last_step C.reading M.stands network.now self.old (SourceOf.Arrival place) }
        requires room { 0 < room_of self.old.waiting place.device }
        ensures kept { IsKept C.last_step C.reading M.stands network.now self.old self.new (noted result note.new) }
        ensures says { WorkSays network.now self.old self.new note.new result }
    {
        let came = self.hear_wire(network, place);
        let Reception { heard, before } = came;
        if heard.is_taken() {
            let taken = heard.record();
            self.give_first(network, taken, note);
            self.rekey_from(network, place.device, before);
            return Turn::Gives;
        }
        let other = heard.record();
        put_in(&mut self.settled, other);
        self.rekey_act_from(network, place.device, before);
        Turn::GoesOn
    }
}
