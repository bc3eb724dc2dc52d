ghost use Rattle.std.specs.Prelude.{◌*◌, ◌+◌, ◌^◌, ◌≡◌, ◌≤ℤ◌, ◌≤◌, List, MatchBool, false, pos, true};
ghost use Rattle.fault_hypothesis.specs.{Watching.Watches, storm.Events.{AreNoLater, IsStormEvent, time_of}};
ghost use Rattle.net_plan.specs.{Belonging.IsOfNetwork, Ranges.IsInRange, declared.event.Event.{Event as EventValue}};
ghost use Rattle.{run_law.specs.scenario.Hypothesis.IsWithinHypothesis, trace_text.specs.Ranges.IsEventInRange};
ghost use Rattle.tte_units.specs.Amount.{amount};

use crate::Watch;
use crate::storm::chosen::choose_event;
use crate::storm::words::Words;
use net_plan::{Event, Network, What};
use schedule_tables::Accepted;
use std::marker::Model;
use tte_units::Units;

/// The steps in a cycle's length. Each brings one event.
const STEPS: u32 = 8;

/// The hostile events of a seed over so many cycles: one at each eighth of a cycle, and then the end.
#[derive(Drop)]
pub struct Storm {
    words: Words,
    cycles: u32,
    given: u32,
}

impl Model for Storm {
    ghost use Rattle.std.specs.Prelude.{◌≡◌, ◌+◌, ◌*◌, ◌≤◌};
    ghost use Rattle.fault_hypothesis.specs.storm.Progress.{Progress};

    ghost Value = { Progress };

    ghost view = { λ s. record { seed = s.words.seed; cycles = s.cycles; given = s.given } };

    ghost invariant = { λ s. (s.cycles ≤ 100000) × (s.given ≤ 8 * s.cycles + 1)
        × (s.given ≤ 8 * s.cycles → s.words.drawn ≡ 3 * s.given) };
}

impl Storm {
    /// The storm of the seed over 1 to 100,000 cycles.
    pub fn new(seed: u64, cycles: u32) -> Storm
        requires least { 1 ≤ cycles }
        requires most { cycles ≤ 100000 }
        ensures { result ≡ record { seed = seed; cycles = cycles; given = 0 } }
    {
        Storm {
            words: Words::new(seed),
            cycles,
            given: 0,
        }
    }

    /// Writes the next event over `event`, given those that the watch admitted, and answers whether there is one. There
    /// is none exactly after the end, and then nothing is written.
    ///
    /// The watch is one over this accepted network, and the last event that it admitted is no later
    /// than the event to come. Where it admits each event of the storm and no others, these are the
    /// events of the storm.
    pub fn next_event(&mut self, accepted: &Accepted, watch: &Watch<'_>, event: &mut Event) -> bool
        ensures event { (admitted : List EventValue) → Watches accepted.now watch.now admitted → result ≡ true
            → IsStormEvent accepted.now self.old.seed self.old.cycles admitted self.old.given event.new }
        ensures within { (admitted : List EventValue) → Watches accepted.now watch.now admitted → result ≡ true
            → AreNoLater admitted (time_of accepted.now self.old.given)
            → IsWithinHypothesis accepted.now admitted event.new }
        ensures time { result ≡ true → event.new.time ≡ time_of accepted.now self.old.given }
        ensures of_network { result ≡ true → IsOfNetwork accepted.now event.new.what }
        ensures range { result ≡ true → IsEventInRange event.new }
        ensures end { MatchBool result (self.old.given ≤ 8 * self.old.cycles)
            (self.old.given ≡ 8 * self.old.cycles + 1) }
        ensures given { result ≡ true → self.new ≡ record self.old { given = self.old.given + 1 } }
        ensures still { result ≡ false → (self.new ≡ self.old) × (event.new ≡ event.old) }
    {
        let steps = STEPS * self.cycles;
        if self.given > steps {
            return false;
        }
        let network = accepted.network();
        let time = step_time(network, self.given);
        if self.given == steps {
            event.time = time;
            event.what = What::End;
        } else {
            choose_event(network, watch, time, self.words.draw(), event);
        }
        self.given += 1;
        true
    }
}

// The time of a step.
fn step_time(network: &Network, step: u32) -> Units
    requires range { IsInRange network.now }
    requires step { step ≤ 800000 }
    ensures value { result ≡ time_of network.now step }
    ensures early { pos 0 ≤ℤ result.0 }
    ensures late { result.0 ≤ℤ pos (2 ^ 60) }
    ensures in_run { result.0 ≤ℤ pos (2 ^ 20 * amount network.now.cycle) }
{
    Units::from_amount((u64::from(step) + 1) * (network.cycle.amount() / u64::from(STEPS)))
}
