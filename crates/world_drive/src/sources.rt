ghost use Rattle.std.specs.Prelude.{◌≡◌, List, OnOk, ℕ};
ghost use Rattle.net_plan.specs.declared.{event.Event.Event as EventValue, network.Network.Network as NetworkValue};
ghost use Rattle.world_drive.specs.{Observing.told_by, Sources.{GivesNext, given_in}};

use net_plan::Event;
use tte_io::Sink;

/// Gives the events that befall a network, one by one. It takes them from a value of type `B`, or stops for a cause of
/// type `S`.
pub trait Events<B, K: Sink, S>: Drop {
    /// From the first value and state to the second it gave these events.
    ghost gave: { NetworkValue → B → Self → List EventValue → B → Self → Type 0 };

    /// These are all of its events.
    ghost ended: { NetworkValue → B → Self → List EventValue → B → Self → Type 0 };

    /// It gave these events, and then stopped for the cause; in its last call the sink became another.
    ghost stopped: { NetworkValue → B → Self → List EventValue → S → B → Self → K → K → Type 0 };

    /// How many events may still come.
    ghost left: { Self → ℕ };

    /// Puts the next event in the place of another, and answers whether there is one: behind the end there is none.
    /// What was put may be passed on.
    fn next_event(&mut self, from: &mut B, event: &mut Event, out: &mut K) -> Result<bool, S>
        ensures gives { (network : NetworkValue) (first : B) (origin : Self) (events : List EventValue)
            → gave network first origin events from.old self.old
            → GivesNext gave ended stopped left network first origin events (given_in result event.new) from.new
            self.old self.new out.old out.new }
        ensures nothing_put { told_by K.Sink out.new ≡ told_by K.Sink out.old }
        ensures quiet { OnOk result (K.faults out.new ≡ K.faults out.old) };
}
