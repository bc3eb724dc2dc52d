ghost use Rattle.std.specs.Prelude.{◌+◌, ◌↔◌, ◌≡◌, ◌≤ℤ◌, IsTrue, Some, false, is_some, length, pos};
ghost use Rattle.std.specs.Prelude.{slice_get, true};
ghost use Rattle.drift_world.specs.Turns.{IsKept, MayWork, WorkSays, noted};
ghost use Rattle.drift_world.specs.declared.source.Source.{Source as SourceOf};
ghost use Rattle.{drift_world.specs.Ripening.IsJudged, net_plan.specs.Ranges.IsInRange};
ghost use Rattle.world_state.specs.{Frames.first_of, declared.contents.Waits.{Waits as WaitsValue}};

use crate::next::Turn;
use crate::state::State;
use device_rules::TellsKind;
use drift_clock::Clock;
use net_plan::{DeviceId, Network};
use run_law::plain::PlainNote;
use run_law::{Machine, Moment, Ripe};
use tte_units::Units;
use world_state::changes::put_change;
use world_state::contents::Waits;
use world_state::hearing::Before;
use world_state::ripening::{joined, record_of, settle_ripe};

/// A frame that is permanent, and what becomes of it.
#[derive(Clone, Copy)]
pub struct Ripened {
    pub waits: Waits,
    pub ripe: Ripe,
}

/// Is its first record how it is judged?
fn is_judged(ripe: Ripe) -> bool
    ensures { IsTrue result ↔ IsJudged ripe }
{
    match ripe {
        Ripe::Opened
        | Ripe::Joined
        | Ripe::Repeat
        | Ripe::Within
        | Ripe::Outside
        | Ripe::Integrates
        | Ripe::Ignored => true,
        Ripe::Dropped(_) => false,
    }
}

impl<C: Clock, M: Machine + Drop> State<C, M> {
    ghost use Rattle.drift_world.specs.{Sound.IsSound, Stepping.{ChangesOnly, IsAt, TurnsPast}};
    ghost use Rattle.{world_law.specs.world.World.ripe_place, world_state.specs.Views.waiting_as};
    ghost use Rattle.world_state.specs.Ripening.{joined_record, ripe_record};

    /// The first frame that waits at the device is permanent: the first of all that is to come. It is answered, with
    /// what becomes of it, whose records are to be put in among what is settled.
    #[inline(always)]
    fn ripen_waits(&mut self, network: &Network, device: DeviceId) -> Ripened
        requires sound { IsSound C.last_step network.now self.old }
        requires range { IsInRange network.now }
        requires there { is_some (first_of self.old.waiting device.0) ≡ true }
        requires reached { (w : WaitsValue) (clock : C) → first_of self.old.waiting device.0 ≡ Some w
            → slice_get self.old.clocks.items w.device.0 ≡ Some clock
            → w.point.0 ≤ℤ pos (C.reading clock self.old.time) }
        requires comes { (w : WaitsValue) → first_of self.old.waiting device.0 ≡ Some w
            → IsAt C.reading M.stands network.now self.old (ripe_place self.old.time (waiting_as w)) }
        ensures sound { IsSound C.last_step network.now self.new }
        ensures is { first_of self.old.waiting device.0 ≡ Some result.waits }
        ensures turns { TurnsPast C.reading M.stands network.now self.old self.new
            (ripe_place self.old.time (waiting_as result.waits)) (Some (ripe_record result.waits result.ripe))
            (joined_record (self.old.given + 1) result.waits.device result.ripe) }
        ensures same { self.new ≡ record self.old {
          early = false;
          machines = self.new.machines;
          waiting = self.new.waiting;
        } }
        ensures others { ChangesOnly result.waits.device.0 self.old self.new }
        ensures shorter { length self.old.waiting.items ≡ length self.new.waiting.items + 1 }
    {
        let waits = self.waiting.take_first(device);
        let reading = self.reading_of(network, waits.device.0);
        let moment = Moment {
            time: Units::from_amount(self.time),
            reading: Units::from_amount(reading),
        };
        let ripe = self.machines[waits.device.0 as usize].ripen(
            moment,
            waits.link,
            &waits.frame,
            waits.point,
        );
        self.early = false;
        Ripened { waits, ripe }
    }
}

impl<C: Clock, M: TellsKind + Drop> State<C, M> {
    /// The first frame that is permanent is judged. The record of how it is judged is given, as it stands at the place
    /// of the source; a change of state comes behind it.
    #[inline(always)]
    pub fn ripening_turn(&mut self, network: &Network, one: Waits, note: &mut PlainNote) -> Turn
        requires may { MayWork C.last_step C.reading M.stands network.now self.old (SourceOf.Ripening one) }
        ensures kept { IsKept C.last_step C.reading M.stands network.now self.old self.new (noted result note.new) }
        ensures says { WorkSays network.now self.old self.new note.new result }
    {
        let before = self.due_of(network, one.device.0);
        let number = self.given + 1;
        let ripened = self.ripen_waits(network, one.device);
        if is_judged(ripened.ripe) {
            let record = record_of(&ripened.waits, ripened.ripe);
            let change = joined(number, ripened.waits.device, ripened.ripe);
            put_change(&mut self.settled, change);
            self.give_first(network, record, note);
            self.rekey_from(network, one.device.0, Before::Due(before));
            return Turn::Gives;
        }
        settle_ripe(&mut self.settled, number, &ripened.waits, ripened.ripe);
        self.rekey_from(network, one.device.0, Before::Due(before));
        Turn::GoesOn
    }
}
