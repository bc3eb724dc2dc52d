//! The dispatches of time-triggered frames.

ghost use Rattle.std.specs.Prelude.{◌↔◌, IsTrue, List};
ghost use Rattle.{audit_law.specs.events.Readings.scenario_under, audit_sweep.specs.Knowing.{IsKnown, KnowsSome}};
ghost use Rattle.{audit_sweep.specs.Passing.IsPassable, net_plan.specs.{Belonging.HasLink, Ranges.IsInRange}};
ghost use Rattle.audit_sweep.specs.records.dispatches.{Judged.{IsKeptOf, LosesDispatch}, Sent.AreFoundByNumber};
ghost use Rattle.net_plan.specs.declared.{event.Event.Event, network.Network.{Network as NetworkValue}};
ghost use Rattle.run_law.specs.{control.Losses.IsDispatchedOn, records.Happenings.Happening};

use crate::known::Known;
use crate::passage::Passage;
use crate::records::Kept;
use crate::records::dispatches::{At, Dispatch, Loss, loses_dispatch, sends_timed};
use net_plan::{Network, VlId};

/// Does the device dispatch the frame of the virtual link and the cycle so, on a way that is not cut?
pub(crate) fn is_dispatched(
    known: &Known,
    network: &Network,
    passage: Passage,
    vl: VlId,
    cycle: u32,
) -> bool
    requires range { IsInRange network.now }
    requires known { KnowsSome network.now known.now }
    requires passable { IsPassable network.now passage }
    ensures { (befallen : List Event) (hs : List Happening) → IsKnown network.now befallen hs known.now
        → HasLink network.now passage.link
        → IsTrue result ↔ IsDispatchedOn (scenario_under network.now befallen) hs passage.device passage.time
        passage.link passage.cause vl cycle }
{
    let Passage {
        device,
        link,
        cause,
        time,
    } = passage;
    let shown = known.standings.before_time(device, time);
    let dispatch = Dispatch {
        link,
        cause,
        vl,
        cycle,
    };
    sends_timed(
        network,
        &known.events,
        &known.exits,
        &known.takings,
        shown,
        At { device, time },
        &dispatch,
    )
}

/// Does the device dispatch a frame so, on a way that is cut?
pub(crate) fn is_dispatch_lost(known: &Known, network: &Network, passage: Passage) -> bool
    requires range { IsInRange network.now }
    requires known { KnowsSome network.now known.now }
    requires passable { IsPassable network.now passage }
    ensures { (befallen : List Event) (hs : List Happening) → IsKnown network.now befallen hs known.now
        → HasLink network.now passage.link → AreFoundByNumber hs
        → IsTrue result ↔ LosesDispatch (scenario_under network.now befallen) hs passage.device passage.time
        passage.link passage.cause }
{
    let Passage {
        device,
        link,
        cause,
        time,
    } = passage;
    let shown = known.standings.before_time(device, time);
    let loss = Loss {
        link,
        cause,
        kept: kept(known, cause),
    };
    loses_dispatch(
        network,
        &known.events,
        &known.exits,
        &known.takings,
        shown,
        At { device, time },
        &loss,
    )
}

/// What is kept of what the record of the number says, if there is one.
fn kept(known: &Known, number: u64) -> Option<Kept>
    ensures { (network : NetworkValue) (befallen : List Event) (hs : List Happening)
        → IsKnown network befallen hs known.now → IsKeptOf hs number result }
{
    match known.records.get(number) {
        Some(record) => Some(record.kept),
        None => None,
    }
}
