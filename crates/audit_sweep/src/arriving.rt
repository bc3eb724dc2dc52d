//! What becomes of frames at their arrival.

ghost use Rattle.std.specs.Prelude.{◌↔◌, ◌≡◌, IsTrue, List};
ghost use Rattle.{audit_law.specs.events.Readings.scenario_under, audit_sweep.specs.Knowing.{IsKnown, KnowsSome}};
ghost use Rattle.audit_sweep.specs.Passing.{IsArrivedAs, IsComing, IsPassable, TakesWith};
ghost use Rattle.audit_sweep.specs.records.wires.{Entrances.{IsLastTaken, judged_as}, Signals.on_wire_of};
ghost use Rattle.{device_rules.specs.Answers.arrival_as, run_law.specs.control.Wires.Signal};
ghost use Rattle.net_plan.specs.Ranges.{IsInRange};
ghost use Rattle.{net_plan.specs.declared.event.Event.Event, run_law.specs.records.Happenings.Happening};
ghost use Rattle.run_law.specs.{runs.DueRecords.IsArrivedRecord, timed.Receptions.{ArrivesAs, arrival_of}};

use crate::known::Known;
use crate::passage::Passage;
use crate::records::wires::{Entered, Judged, OnWire, arriving, entered_as};
use crate::standing::standpoint;
use device_rules::TimedArrival;
use net_plan::Network;
use run_law::Arrival;

/// What becomes of what the other record put on the link and arrives so, if anything does.
pub(crate) fn arrived(known: &Known, network: &Network, passage: Passage) -> Option<Judged>
    requires range { IsInRange network.now }
    requires known { KnowsSome network.now known.now }
    requires passable { IsPassable network.now passage }
    ensures { (befallen : List Event) (hs : List Happening) → IsKnown network.now befallen hs known.now
        → IsArrivedAs (scenario_under network.now befallen) hs passage result }
{
    match signal(known, network, passage) {
        Some(what) => Some(judged(known, network, passage, &what)),
        None => None,
    }
}

/// What the other record put on the link and arrives so.
fn signal(known: &Known, network: &Network, passage: Passage) -> Option<OnWire>
    ensures { (befallen : List Event) (hs : List Happening) → IsKnown network.now befallen hs known.now
        → IsComing (scenario_under network.now befallen) hs passage result }
{
    match known.records.get(passage.cause) {
        Some(kept) => arriving(
            network,
            &known.events,
            kept,
            passage.device,
            passage.link,
            passage.time,
        ),
        None => None,
    }
}

/// What becomes of this at its arrival.
fn judged(known: &Known, network: &Network, passage: Passage, what: &OnWire) -> Judged
    requires range { IsInRange network.now }
    requires known { KnowsSome network.now known.now }
    requires passable { IsPassable network.now passage }
    ensures { (befallen : List Event) (hs : List Happening) (signal : Signal)
        → IsKnown network.now befallen hs known.now → what.now ≡ on_wire_of signal
        → judged_as result ≡ arrival_of (scenario_under network.now befallen) hs passage.device passage.time
        passage.link passage.cause signal }
{
    let at = standpoint(known, network, passage.device, passage.time);
    let entered = entered_as(
        network,
        &known.entrances,
        passage.device,
        passage.link,
        &at,
        what,
    );
    let last = last_taken(known, network, passage, &entered);
    entered.becomes(network, passage.device, &at, last)
}

/// The cycle in which the device took the last frame of the virtual link of the row by which it enters.
fn last_taken(known: &Known, network: &Network, passage: Passage, entered: &Entered) -> Option<u32>
    requires known { KnowsSome network.now known.now }
    requires passable { IsPassable network.now passage }
    ensures { (befallen : List Event) (hs : List Happening) → IsKnown network.now befallen hs known.now
        → IsLastTaken hs passage.device passage.time passage.link passage.cause entered.now result }
{
    match entered {
        Entered::ByRow(row, _) => known.takings.last_taken(
            passage.device,
            passage.time,
            passage.link,
            passage.cause,
            row.vl(),
        ),
        Entered::Control(_) | Entered::Refused(_) => None,
    }
}

/// Does this become of what the other record put on the link and arrives so?
pub(crate) fn arrives_as(
    known: &Known,
    network: &Network,
    passage: Passage,
    is: TimedArrival,
) -> bool
    requires range { IsInRange network.now }
    requires known { KnowsSome network.now known.now }
    requires passable { IsPassable network.now passage }
    ensures { (befallen : List Event) (hs : List Happening) → IsKnown network.now befallen hs known.now
        → IsTrue result ↔ ArrivesAs (scenario_under network.now befallen) hs passage.device passage.time passage.link
        passage.cause (arrival_as is) }
{
    match arrived(known, network, passage) {
        Some(judged) => is_judged(judged, is),
        None => false,
    }
}

/// Is a control frame that arrives so taken with this transparent clock?
pub(crate) fn is_taken(known: &Known, network: &Network, passage: Passage, clock: u64) -> bool
    requires range { IsInRange network.now }
    requires known { KnowsSome network.now known.now }
    requires passable { IsPassable network.now passage }
    ensures { (befallen : List Event) (hs : List Happening) → IsKnown network.now befallen hs known.now
        → IsTrue result ↔ IsArrivedRecord (scenario_under network.now befallen) hs passage.device passage.time
        passage.link passage.cause clock }
{
    match arrived(known, network, passage) {
        Some(judged) => is_taken_with(judged, clock),
        None => false,
    }
}

/// Does this become of it?
fn is_judged(judged: Judged, is: TimedArrival) -> bool
    ensures { IsTrue result ↔ (judged_as judged ≡ arrival_as is) }
{
    match judged {
        Judged::Control(arrival) => is_control(arrival, is),
        Judged::Timed(arrival) => is_timed(arrival, is),
    }
}

/// Does this become of a control frame?
fn is_control(arrival: Arrival, is: TimedArrival) -> bool
    ensures { IsTrue result ↔ (arrival ≡ arrival_as is) }
{
    match arrival {
        Arrival::Dropped(reason) => is_timed(TimedArrival::Dropped(reason), is),
        Arrival::Accepted(vl, cycle) => is_timed(TimedArrival::Accepted(vl, u64::from(cycle)), is),
        Arrival::Delivered(vl, cycle) => {
            is_timed(TimedArrival::Delivered(vl, u64::from(cycle)), is)
        }
        Arrival::Waits(_, _) | Arrival::Passes(_, _) | Arrival::PassesAndWaits(_, _, _) => false,
    }
}

/// Does this become of a frame that is no control frame?
fn is_timed(arrival: TimedArrival, is: TimedArrival) -> bool
    ensures { IsTrue result ↔ (arrival_as arrival ≡ arrival_as is) }
{
    match is {
        TimedArrival::Dropped(reason) => match arrival {
            TimedArrival::Dropped(found) => found == reason,
            TimedArrival::Accepted(_, _) | TimedArrival::Delivered(_, _) => false,
        },
        TimedArrival::Accepted(vl, cycle) => match arrival {
            TimedArrival::Accepted(found, at) => found.0 == vl.0 && at == cycle,
            TimedArrival::Dropped(_) | TimedArrival::Delivered(_, _) => false,
        },
        TimedArrival::Delivered(vl, cycle) => match arrival {
            TimedArrival::Delivered(found, at) => found.0 == vl.0 && at == cycle,
            TimedArrival::Dropped(_) | TimedArrival::Accepted(_, _) => false,
        },
    }
}

/// Is it a control frame that is taken with this transparent clock?
fn is_taken_with(judged: Judged, clock: u64) -> bool
    ensures { IsTrue result ↔ TakesWith clock (judged_as judged) }
{
    match judged {
        Judged::Control(arrival) => takes_with(arrival, clock),
        Judged::Timed(_) => false,
    }
}

/// Is a control frame of which this becomes taken with this transparent clock?
fn takes_with(arrival: Arrival, clock: u64) -> bool
    ensures { IsTrue result ↔ TakesWith clock arrival }
{
    match arrival {
        Arrival::Waits(frame, _)
        | Arrival::Passes(frame, _)
        | Arrival::PassesAndWaits(frame, _, _) => frame.clock == clock,
        Arrival::Dropped(_) | Arrival::Accepted(_, _) | Arrival::Delivered(_, _) => false,
    }
}
