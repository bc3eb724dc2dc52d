ghost use Rattle.std.specs.Prelude.{◌*◌, ◌+◌, ◌≡◌, ◌≤◌, List, None, Some, [], if◌then◌else◌, length, ℕ};
ghost use Rattle.net_plan.specs.declared.{event.Event.Event as EventValue, network.Network.Network as NetworkValue};
ghost use Rattle.tte_traces.specs.storms.Storms.{GivesStorm, IsStormTo, left_of};

use fault_hypothesis::Watch;
use fault_hypothesis::storm::Storm;
use net_plan::{Event, What};
use schedule_tables::Accepted;
use tte_io::Sink;
use tte_units::Units;
use world_drive::Events;

/// The events of a storm, each admitted by the fault hypothesis.
#[derive(Drop)]
pub struct StormEvents<'a> {
    accepted: &'a Accepted,
    storm: Storm,
    /// The watch that admitted the events so far.
    watch: Watch<'a>,
}

impl<'a> StormEvents<'a> {
    /// The storm of the seed over 1 to 100,000 cycles, of which no event was given.
    pub fn new(accepted: &'a Accepted, seed: u64, cycles: u32) -> StormEvents<'a>
        requires least { 1 ≤ cycles }
        requires most { cycles ≤ 100000 }
        ensures { IsStormTo accepted.now seed cycles [] result }
    {
        StormEvents {
            accepted,
            storm: Storm::new(seed, cycles),
            watch: Watch::new(accepted),
        }
    }

    /// The next event of the storm, or None behind its end.
    pub fn next(&mut self) -> Option<Event>
        ensures { (network : NetworkValue) (seed cycles : ℕ) (events : List EventValue)
            → IsStormTo network seed cycles events self.old
            → GivesStorm network seed cycles events result self.old self.new }
    {
        let mut event = Event {
            time: Units(0),
            what: What::End,
        };
        if self.next_in(&mut event) {
            Some(event)
        } else {
            None
        }
    }

    // Writes the next event of the storm over `event`, and answers whether there is one: behind its end there is none.
    fn next_in(&mut self, event: &mut Event) -> bool
        ensures { (network : NetworkValue) (seed cycles : ℕ) (events : List EventValue)
            → IsStormTo network seed cycles events self.old
            → GivesStorm network seed cycles events (if result then Some event.new else None) self.old self.new }
    {
        if self.storm.next_event(self.accepted, &self.watch, event) {
            // It is within the hypothesis, as each event of a storm is.
            self.watch.keep(event);
            true
        } else {
            false
        }
    }
}

impl<'a, K: Sink> Events<(), K, ()> for StormEvents<'a> {
    ghost gave = { λ network first origin events from it.
        IsStormTo network origin.storm.seed origin.storm.cycles events it };

    ghost ended = { λ network first origin events from it.
        IsStormTo network origin.storm.seed origin.storm.cycles events it
        × (length events ≡ 8 * origin.storm.cycles + 1) };

    ghost stopped = { λ network first origin events stop from it before after. ⊥ };

    ghost left = { λ it. left_of it };

    fn next_event(&mut self, _from: &mut (), event: &mut Event, _out: &mut K) -> Result<bool, ()> {
        Ok(self.next_in(event))
    }
}
