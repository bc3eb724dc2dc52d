//! Changes of states.

ghost use Rattle.std.specs.Prelude.{◌^◌, ◌↔◌, ◌≡◌, ◌≤◌, IsTrue, List};
ghost use Rattle.audit_devices.specs.{Showing.NoneLater, clocks.Brought.bringer_of};
ghost use Rattle.audit_law.specs.{events.Readings.scenario_under, law.DueRecords.{ChangesState, IsDue}};
ghost use Rattle.net_plan.specs.{Belonging.HasDevice, Ranges.IsInRange, declared.event.Event.Event};
ghost use Rattle.net_plan.specs.declared.network.Network.{Network as NetworkValue};
ghost use Rattle.run_law.specs.{records.{Happenings.Happening, Ranks.place_of}, runs.Runs.IsFounded};
ghost use Rattle.audit_sweep.specs.{Bringers.bringer_by, Knowing.{IsKnown, KnowsSome}};

use crate::clocks::heard;
use crate::known::Known;
use crate::records::Kept;
use audit_devices::clocks::{Bringer, DeviceMoment, StateChange, changes_state};
use net_plan::{DeviceId, Network};

/// Does the device change its state so at the time?
pub(crate) fn is_changed(
    known: &Known,
    network: &Network,
    device: DeviceId,
    time: u64,
    said: StateChange,
) -> bool
    requires range { IsInRange network.now }
    requires known { KnowsSome network.now known.now }
    requires there { HasDevice network.now device }
    requires limit { time ≤ 2 ^ 60 }
    ensures { (befallen : List Event) (hs : List Happening) → IsKnown network.now befallen hs known.now
        → IsFounded place_of (IsDue (scenario_under network.now befallen)) hs → NoneLater time hs → IsTrue result
        ↔ ChangesState (scenario_under network.now befallen) hs device time said.state said.cause said.why }
{
    let shown = known.standings.before_time(device, time);
    let moment = DeviceMoment::of(&known.events, device, time);
    let heard = heard(known, network, device, time, moment.readings.before);
    let bringer = bringer(known, device, time, said.cause);
    changes_state(network, device, shown, moment, &heard, bringer, said)
}

/// What the record of the number `cause` is to the device's state, if it is one of this time.
fn bringer(known: &Known, device: DeviceId, time: u64, cause: u64) -> Bringer
    ensures { (network : NetworkValue) (befallen : List Event) (hs : List Happening)
        → IsKnown network befallen hs known.now → result ≡ bringer_of hs device time cause }
{
    let kept = match known.records.get(cause) {
        Some(kept) => kept,
        None => return Bringer::Other,
    };
    if kept.time == time {
        bringer_by(device, kept.kept)
    } else {
        Bringer::Other
    }
}

/// What a record of which this is kept is to the device's state.
fn bringer_by(device: DeviceId, kept: Kept) -> Bringer
    ensures { result ≡ bringer_by device kept }
{
    match kept {
        Kept::On(other) => {
            if device.0 == other.0 {
                Bringer::TurnsOn
            } else {
                Bringer::Other
            }
        }
        Kept::Corrected(other) => {
            if device.0 == other.0 {
                Bringer::Corrects
            } else {
                Bringer::Other
            }
        }
        Kept::Permanent(other, tells) | Kept::Compressed(other, tells) => {
            if tells && device.0 == other.0 {
                Bringer::Joins
            } else {
                Bringer::Other
            }
        }
        Kept::Send(_, _)
        | Kept::Arrived(_, _, _)
        | Kept::Sent(_)
        | Kept::Left(_, _)
        | Kept::TtSent(_, _)
        | Kept::Accepted(_, _, _)
        | Kept::Delivered(_, _, _)
        | Kept::Other => Bringer::Other,
    }
}
