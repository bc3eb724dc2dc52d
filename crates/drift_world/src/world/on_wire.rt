ghost use Rattle.std.specs.Prelude.{◌≡◌, List, option_copied, option_map};
ghost use Rattle.{drift_world.specs.Running.{StandsUnder, reading_of}, world_law.specs.source.Agreeing.scenario};
ghost use Rattle.drift_world.specs.Wires.{IsOfNow, IsOnOwnLink, on_wire_in, put_by};
ghost use Rattle.net_plan.specs.declared.{event.Event.{Event as EventValue}, network.Network.Network};
ghost use Rattle.run_law.specs.{declared.note.Note.{Note as NoteValue}, records.Happenings.{Happening, happenings}};
ghost use Rattle.world_state.specs.Views.{signal_as};

use super::World;
use drift_clock::Clock;
use run_law::Machine;
use run_law::plain::Rank;
use world_state::contents::{Content, Signal};

/// What is on a wire, of what is under way.
fn signal_in(found: Option<&Content>) -> Option<&Signal>
    ensures { option_copied result ≡ on_wire_in (option_copied found.entry) }
{
    match found {
        Some(Content::Wire(signal)) => Some(signal),
        Some(Content::Port(_, _)) | None => None,
    }
}

impl<'a, C: Clock, M: Machine + Drop> World<'a, C, M> {
    /// What a record of the present instant, behind those of its events, put on a wire. It is None exactly where it put
    /// nothing there.
    ///
    /// It looks through all that is under way.
    pub fn on_wire(&self, number: u64) -> Option<&Signal>
        ensures { (network : Network) (events : List EventValue) (notes : List NoteValue) (h : Happening)
            → StandsUnder C.fresh C.after_step C.reading M.stands network self.now events notes
            → IsOfNow (happenings network notes) self.now.now number h
            → IsOnOwnLink (scenario network (reading_of C.fresh C.after_step C.reading network events) events) h
            → option_map (signal_as network) (option_copied result)
            ≡ put_by (scenario network (reading_of C.fresh C.after_step C.reading network events) events) h }
    {
        let rank = Rank::Arrived.number();
        signal_in(self.state.under_way.find(rank, number))
    }
}
