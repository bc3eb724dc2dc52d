//! Whether a record is due, given those before it.

ghost use Rattle.std.specs.Prelude.{◌+◌, ◌↔◌, ◌≡◌, ◌≤ℤ◌, IsTrue, List, length, pos};
ghost use Rattle.audit_law.specs.{events.Readings.scenario_under, law.DueRecords.{IsCaused, IsDue}};
ghost use Rattle.audit_sweep.specs.{Judging.{Befalls, IsJudgeable, StandsBehind}, Knowing.{IsKnown, KnowsSome}};
ghost use Rattle.{net_plan.specs.Ranges.IsInRange, tte_units.specs.Amount.amount};
ghost use Rattle.{net_plan.specs.declared.event.Event.Event, run_law.specs.records.Happenings.{Happening, happening}};
ghost use Rattle.run_law.specs.{records.{Order.AllBefore, Ranks.place_of}, runs.Runs.IsFounded};

use crate::arriving::{arrives_as, is_taken};
use crate::changing::is_changed;
use crate::clocks::{is_corrected, is_end_clock, is_sent};
use crate::dispatching::{is_dispatch_lost, is_dispatched};
use crate::ending::{is_dropped, is_lost};
use crate::hearing::{becomes_permanent, emits};
use crate::known::Known;
use crate::leaving::departs;
use crate::passage::Passage;
use audit_devices::clocks::{Correction, EndClock, StateChange};
use compression::Compressed;
use device_rules::{Departed, TimedArrival};
use net_plan::{DeviceId, LinkId, Network};
use run_law::{Note, NoteBody};
use tte_units::Units;

/// Is the record, which stands behind all those before it and has the next number, due given them?
pub(crate) fn is_due(known: &Known, network: &Network, note: &Note) -> bool
    requires range { IsInRange network.now }
    requires known { KnowsSome network.now known.now }
    requires judgeable { IsJudgeable network.now note.now.time note.now.body }
    ensures { (befallen : List Event) (hs : List Happening) → IsKnown network.now befallen hs known.now
        → IsFounded place_of (IsDue (scenario_under network.now befallen)) hs
        → AllBefore place_of hs (place_of (happening network.now hs note.now)) → note.now.number ≡ length hs + 1
        → Befalls befallen note.now.time note.now.body
        → IsTrue result ↔ IsDue (scenario_under network.now befallen) hs (happening network.now hs note.now) }
{
    is_caused(known, network, note.time, &note.body)
}

/// Has what a record of this time and body says a cause?
fn is_caused(known: &Known, network: &Network, time: Units, body: &NoteBody) -> bool
    requires range { IsInRange network.now }
    requires known { KnowsSome network.now known.now }
    requires judgeable { IsJudgeable network.now time body.now }
    ensures { (befallen : List Event) (hs : List Happening) → IsKnown network.now befallen hs known.now
        → IsFounded place_of (IsDue (scenario_under network.now befallen)) hs → StandsBehind hs time body.now
        → Befalls befallen time body.now
        → IsTrue result ↔ IsCaused (scenario_under network.now befallen) hs time body.now }
{
    let at = time.amount();
    match body {
        NoteBody::Event { .. } => true,
        NoteBody::Arrived {
            device,
            link,
            cause,
            clock,
        } => {
            let passage = passage(*device, *link, *cause, time);
            is_taken(known, network, passage, *clock)
        }
        NoteBody::Permanent {
            device,
            link,
            cause,
            point,
            verdict,
        } => {
            let passage = passage(*device, *link, *cause, time);
            becomes_permanent(known, network, passage, *point, *verdict)
        }
        NoteBody::Compressed {
            device,
            opened,
            at: sent_at,
            cycle,
            members,
            verdict,
        } => {
            let sent = Compressed {
                opened: *opened,
                at: *sent_at,
                cycle: *cycle,
                members: *members,
            };
            emits(known, network, *device, at, &sent, *verdict)
        }
        NoteBody::Sent { device, cycle } => is_sent(known, network, *device, at, *cycle),
        NoteBody::Corrected {
            device,
            cycle,
            by,
            adjustment,
        } => {
            let said = Correction {
                cycle: *cycle,
                by: *by,
                adjustment: *adjustment,
            };
            is_corrected(known, network, *device, at, said)
        }
        NoteBody::State {
            device,
            state,
            cause,
            why,
        } => {
            let said = StateChange {
                state: *state,
                cause: *cause,
                why: *why,
            };
            is_changed(known, network, *device, at, said)
        }
        NoteBody::Left {
            device,
            link,
            cause,
            clock,
        } => {
            let passage = passage(*device, *link, *cause, time);
            departs(known, network, passage, Departed::Leaves(*clock))
        }
        NoteBody::Lost {
            device,
            link,
            cause,
        } => {
            let passage = passage(*device, *link, *cause, time);
            let dispatched = is_dispatch_lost(known, network, passage);
            is_lost(known, network, passage, dispatched)
        }
        NoteBody::TtSent {
            device,
            link,
            cause,
            vl,
            cycle,
        } => {
            let passage = passage(*device, *link, *cause, time);
            is_dispatched(known, network, passage, *vl, *cycle)
        }
        NoteBody::Accepted {
            device,
            link,
            cause,
            vl,
            cycle,
        } => {
            let passage = passage(*device, *link, *cause, time);
            let is = TimedArrival::Accepted(*vl, u64::from(*cycle));
            arrives_as(known, network, passage, is)
        }
        NoteBody::Delivered {
            device,
            link,
            cause,
            vl,
            cycle,
        } => {
            let passage = passage(*device, *link, *cause, time);
            let is = TimedArrival::Delivered(*vl, u64::from(*cycle));
            arrives_as(known, network, passage, is)
        }
        NoteBody::Dropped {
            device,
            link,
            cause,
            reason,
        } => {
            let passage = passage(*device, *link, *cause, time);
            is_dropped(known, network, passage, *reason)
        }
        NoteBody::Clock {
            device,
            reading,
            adjustment,
            state,
        } => {
            let said = EndClock {
                reading: *reading,
                adjustment: *adjustment,
                state: *state,
            };
            is_end_clock(known, network, *device, time, said)
        }
    }
}

/// What a record of the time says of something that comes from another.
fn passage(device: DeviceId, link: LinkId, cause: u64, time: Units) -> Passage
    requires begun { pos 0 ≤ℤ time.0 }
    ensures { result ≡ record { device = device; link = link; cause = cause; time = amount time } }
{
    Passage {
        device,
        link,
        cause,
        time: time.amount(),
    }
}
