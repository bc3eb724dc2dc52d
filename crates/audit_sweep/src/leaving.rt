//! What becomes of control frames at their leaving.

ghost use Rattle.std.specs.Prelude.{◌↔◌, ◌≡◌, IsTrue, List};
ghost use Rattle.{audit_law.specs.events.Readings.scenario_under, run_law.specs.records.Happenings.Happening};
ghost use Rattle.audit_sweep.specs.{Knowing.{IsKnown, KnowsSome}, records.wires.Departings.IsDeparted};
ghost use Rattle.{audit_sweep.specs.Passing.IsPassable, run_law.specs.control.{Leaving.Departs, Losses.IsSendLost}};
ghost use Rattle.{device_rules.specs.Answers.departure_as, net_plan.specs.declared.event.Event.Event};
ghost use Rattle.net_plan.specs.Ranges.{IsInRange};

use crate::known::Known;
use crate::passage::Passage;
use crate::records::wires::departure;
use device_rules::Departed;
use net_plan::Network;

/// Does the frame of the record leave so, and does this become of it?
pub(crate) fn departs(known: &Known, network: &Network, passage: Passage, is: Departed) -> bool
    requires range { IsInRange network.now }
    requires known { KnowsSome network.now known.now }
    requires passable { IsPassable network.now passage }
    ensures { (befallen : List Event) (hs : List Happening) → IsKnown network.now befallen hs known.now
        → IsTrue result ↔ Departs (scenario_under network.now befallen) hs passage.device passage.time passage.link
        passage.cause (departure_as is) }
{
    match departed(known, network, passage) {
        Some(departed) => is_same(departed, is),
        None => false,
    }
}

/// What becomes of the frame of the record that leaves so, if one does.
fn departed(known: &Known, network: &Network, passage: Passage) -> Option<Departed>
    requires range { IsInRange network.now }
    requires known { KnowsSome network.now known.now }
    requires passable { IsPassable network.now passage }
    ensures { (befallen : List Event) (hs : List Happening) → IsKnown network.now befallen hs known.now
        → IsDeparted (scenario_under network.now befallen) hs passage.device passage.time passage.link passage.cause
        result }
{
    let kept = match known.records.get(passage.cause) {
        Some(kept) => kept,
        None => return None,
    };
    departure(
        network,
        &known.events,
        kept,
        passage.device,
        passage.link,
        passage.time,
    )
}

/// Are the octets of the `send` event lost so?
pub(crate) fn is_send_lost(known: &Known, network: &Network, passage: Passage) -> bool
    ensures { (befallen : List Event) (hs : List Happening) → IsKnown network.now befallen hs known.now
        → IsTrue result ↔ IsSendLost (scenario_under network.now befallen) hs passage.device passage.time passage.link
        passage.cause }
{
    let kept = match known.records.get(passage.cause) {
        Some(kept) => kept,
        None => return false,
    };
    crate::records::wires::is_send_lost(
        network,
        &known.events,
        kept,
        passage.device,
        passage.link,
        passage.time,
    )
}

fn is_same(departed: Departed, other: Departed) -> bool
    ensures { IsTrue result ↔ (departed ≡ other) }
{
    departed == other
}
