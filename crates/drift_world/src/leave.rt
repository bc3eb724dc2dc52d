ghost use Rattle.std.specs.Prelude.{◌+◌, ◌<◌, ◌^◌, ◌≡◌, ◌≤◌, IfSome, None, false, length, ℕ};
ghost use Rattle.{net_plan.specs.Ranges.IsInRange, run_law.specs.scenario.Scenarios.Scenario};
ghost use Rattle.drift_world.specs.Turns.{IsKept, MayWork, WorkSays, noted};
ghost use Rattle.drift_world.specs.declared.source.Source.{Source as SourceOf};
ghost use Rattle.world_state.specs.queue.Places.{numbers_of};
ghost use Rattle.world_law.specs.world.World.{is_at_source};

use crate::next::Turn;
use crate::state::State;
use device_rules::TellsKind;
use drift_clock::Clock;
use net_plan::{DeviceId, LinkId, Network};
use run_law::Machine;
use run_law::plain::PlainNote;
use tte_units::frames::Pcf;
use world_state::leaving::{LeavingFrame, departed, take_port};
use world_state::queue::DueAt;
use world_state::settled::put_in;

impl<C: Clock, M: Machine + Drop> State<C, M> {
    ghost use Rattle.drift_world.specs.{Showing.IsOf, Sound.{IsSized, IsSound}, Stepping.{ChangesOnly, TurnsPast}};
    ghost use Rattle.run_law.specs.records.Ranks.{rank};
    ghost use Rattle.world_state.specs.{Giving.{HasItsOctets, changed_device}, Leaving.{departure_in, port_entry}};

    /// The frame at a port that leaves, seen as its record; of a broken device there is none.
    #[inline(always)]
    fn departure(
        &self,
        network: &Network,
        place: DueAt,
        frame: Pcf,
        given: u64,
    ) -> Option<LeavingFrame>
        requires sized { IsSized C.last_step network.now self.now }
        requires range { IsInRange network.now }
        requires device { place.device < length network.now.device }
        requires link { place.link < length network.now.link }
        ensures octets { IfSome result (λ z. HasItsOctets z.body z.octets) }
        ensures late { IfSome result (λ z. (rank z.body ≡ 8 → ⊥) → is_at_source z.body ≡ false) }
        ensures none { IfSome result (λ z. changed_device z.body ≡ 2 ^ 32) }
        ensures is { (s : Scenario) → IsOf C.reading s network.now self.now
            → result ≡ departure_in s self.now.time (port_entry place frame given) }
    {
        if self.broken[place.device as usize] {
            return None;
        }
        let reading = self.reading_of(network, place.device);
        let way = self.way_from(network, DeviceId(place.device), LinkId(place.link));
        Some(departed(network, reading, way.cut, place, frame, given))
    }

    /// The frame at a port that is the first of all leaves. It is answered, seen as the record of it, which is to be
    /// put in among what is settled; of a broken device there is none.
    #[inline(always)]
    fn leave_port(&mut self, network: &Network, place: DueAt) -> Option<LeavingFrame>
        requires may { MayWork C.last_step C.reading M.stands network.now self.old (SourceOf.Departure place) }
        ensures sound { IsSound C.last_step network.now self.new }
        ensures octets { IfSome result (λ z. HasItsOctets z.body z.octets) }
        ensures late { IfSome result (λ z. (rank z.body ≡ 8 → ⊥) → is_at_source z.body ≡ false) }
        ensures none { IfSome result (λ z. changed_device z.body ≡ 2 ^ 32) }
        ensures turns { TurnsPast C.reading M.stands network.now self.old self.new (numbers_of place) result None }
        ensures others { (n : ℕ) → ChangesOnly n self.old self.new }
        ensures same { self.new ≡ record self.old { early = false; under_way = self.new.under_way } }
        ensures shorter { length self.old.under_way.entries ≡ length self.new.under_way.entries + 1 }
        ensures room { self.old.under_way.room ≤ self.new.under_way.room }
    {
        let (frame, given) = take_port(&mut self.under_way, place);
        self.early = false;
        self.departure(network, place, frame, given)
    }
}

impl<C: Clock, M: TellsKind + Drop> State<C, M> {
    /// The frame that is first at a port leaves. Where it goes on its wire, its record is given: it stands at the place
    /// of the source.
    #[inline(always)]
    pub fn departure_turn(&mut self, network: &Network, place: DueAt, note: &mut PlainNote) -> Turn
        requires may { MayWork C.last_step C.reading M.stands network.now self.old (SourceOf.Departure place) }
        ensures kept { IsKept C.last_step C.reading M.stands network.now self.old self.new (noted result note.new) }
        ensures says { WorkSays network.now self.old self.new note.new result }
    {
        let Some(frame) = self.leave_port(network, place) else {
            return Turn::GoesOn;
        };
        if frame.leaves() {
            let gone = frame.record();
            self.give_first(network, gone, note);
            return Turn::Gives;
        }
        let other = frame.record();
        put_in(&mut self.settled, other);
        Turn::GoesOn
    }
}
