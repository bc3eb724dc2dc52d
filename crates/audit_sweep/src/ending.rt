//! How the ways of frames end: lost on a cut link, or dropped for a reason.

ghost use Rattle.std.specs.Prelude.{◌↔◌, ◌≡◌, IsTrue, List, true, ℕ};
ghost use Rattle.audit_law.specs.events.Readings.{scenario_under};
ghost use Rattle.net_plan.specs.{Ranges.IsInRange, declared.{event.Event.Event, ids.VlId.VlId}};
ghost use Rattle.run_law.specs.control.{Leaving.{Departs, too_old}, Losses.{IsDropped, IsLost}};
ghost use Rattle.run_law.specs.{declared.judgement.Reason.TheVariants.Old, records.Happenings.Happening};
ghost use Rattle.run_law.specs.{scenario.Ways.{is_cut, way_from}, timed.Dispatching.Dispatches};
ghost use Rattle.audit_sweep.specs.{Knowing.{IsKnown, KnowsSome}, Passing.IsPassable};

use crate::arriving::arrives_as;
use crate::hearing::drops;
use crate::known::Known;
use crate::leaving::{departs, is_send_lost};
use crate::passage::Passage;
use device_rules::{Departed, TimedArrival};
use net_plan::Network;
use run_law::Reason;

/// Is the frame that comes from the other record dropped so, for the reason?
pub(crate) fn is_dropped(known: &Known, network: &Network, passage: Passage, reason: Reason) -> bool
    requires range { IsInRange network.now }
    requires known { KnowsSome network.now known.now }
    requires passable { IsPassable network.now passage }
    ensures { (befallen : List Event) (hs : List Happening) → IsKnown network.now befallen hs known.now
        → IsTrue result ↔ IsDropped (scenario_under network.now befallen) hs passage.device passage.time passage.link
        passage.cause reason }
{
    if arrives_as(known, network, passage, TimedArrival::Dropped(reason)) {
        return true;
    }
    if drops(known, network, passage, reason) {
        return true;
    }
    is_too_old(known, network, passage, reason)
}

/// Is it dropped so at its leaving?
fn is_too_old(known: &Known, network: &Network, passage: Passage, reason: Reason) -> bool
    requires range { IsInRange network.now }
    requires known { KnowsSome network.now known.now }
    requires passable { IsPassable network.now passage }
    ensures { (befallen : List Event) (hs : List Happening) → IsKnown network.now befallen hs known.now
        → IsTrue result ↔ (Departs (scenario_under network.now befallen) hs passage.device passage.time passage.link
        passage.cause too_old × (reason ≡ Old)) }
{
    if !is_old(reason) {
        return false;
    }
    departs(known, network, passage, Departed::TooOld)
}

fn is_old(reason: Reason) -> bool
    ensures { IsTrue result ↔ (reason ≡ Old) }
{
    reason == Reason::Old
}

/// Does the frame that comes from the other record meet a cut way so? `dispatched` tells whether one does at its
/// dispatch.
pub(crate) fn is_lost(known: &Known, network: &Network, passage: Passage, dispatched: bool) -> bool
    requires range { IsInRange network.now }
    requires known { KnowsSome network.now known.now }
    requires passable { IsPassable network.now passage }
    ensures { (befallen : List Event) (hs : List Happening) → IsKnown network.now befallen hs known.now
        → (let s = scenario_under network.now befallen in IsTrue dispatched ↔ ((vl : VlId) × (cycle : ℕ)
        × Dispatches s hs passage.device passage.time passage.link passage.cause vl cycle
        × (is_cut s passage.link (way_from network.now passage.device passage.link) passage.time ≡ true)))
        → IsTrue result ↔ IsLost (scenario_under network.now befallen) hs passage.device passage.time passage.link
        passage.cause }
{
    if dispatched {
        return true;
    }
    if departs(known, network, passage, Departed::OnCutWay) {
        return true;
    }
    is_send_lost(known, network, passage)
}
