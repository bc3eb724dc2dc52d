//! What clocks come to: what masters send, corrections, changes of state, and the clocks at the end.

ghost use Rattle.std.specs.Prelude.{◌-◌, ◌^◌, ◌↔◌, ◌≡◌, ◌≤ℤ◌, ◌≤◌, IsTrue, List, pos};
ghost use Rattle.{audit_devices.specs.Showing.NoneLater, run_law.specs.{runs.Runs.IsFounded, timed.Dispatching.Sends}};
ghost use Rattle.{audit_devices.specs.clocks.Points.IsHeard, audit_sweep.specs.Knowing.{IsKnown, KnowsSome}};
ghost use Rattle.audit_law.specs.{events.Readings.scenario_under, law.DueRecords.{IsCorrectedRecord, IsDue}};
ghost use Rattle.{net_plan.specs.{Belonging.HasDevice, Ranges.IsInRange}, run_law.specs.records.Ranks.place_of};
ghost use Rattle.net_plan.specs.declared.{event.Event.Event, network.Network.{Network as NetworkValue}};
ghost use Rattle.run_law.specs.{records.Happenings.Happening, runs.DueRecords.{EndsAt, IsClockRecord}};
ghost use Rattle.tte_units.specs.Amount.{amount};

use crate::known::Known;
use audit_devices::clocks::{Correction, DeviceMoment, EndClock, corrects, sends, shows_clock};
use net_plan::{DeviceId, Network};
use run_law::plain::Rank;
use sync_state::membership::Heard;
use tte_units::Units;

/// Does the master send the control frame of the cycle at the time?
pub(crate) fn is_sent(
    known: &Known,
    network: &Network,
    device: DeviceId,
    time: u64,
    cycle: u32,
) -> bool
    requires range { IsInRange network.now }
    requires known { KnowsSome network.now known.now }
    requires there { HasDevice network.now device }
    requires limit { time ≤ 2 ^ 60 }
    ensures { (befallen : List Event) (hs : List Happening) → IsKnown network.now befallen hs known.now
        → IsTrue result ↔ Sends (scenario_under network.now befallen) hs device time cycle }
{
    let shown = known.standings.before_time(device, time);
    let moment = DeviceMoment::of(&known.events, device, time);
    sends(network, device, shown, moment, cycle)
}

/// Is the device's clock corrected so at the time?
pub(crate) fn is_corrected(
    known: &Known,
    network: &Network,
    device: DeviceId,
    time: u64,
    said: Correction,
) -> bool
    requires range { IsInRange network.now }
    requires known { KnowsSome network.now known.now }
    requires there { HasDevice network.now device }
    requires limit { time ≤ 2 ^ 60 }
    ensures { (befallen : List Event) (hs : List Happening) → IsKnown network.now befallen hs known.now
        → IsFounded place_of (IsDue (scenario_under network.now befallen)) hs → NoneLater time hs → IsTrue result
        ↔ IsCorrectedRecord (scenario_under network.now befallen) hs device time said.cycle said.by said.adjustment }
{
    let shown = known.standings.before_time(device, time);
    let moment = DeviceMoment::of(&known.events, device, time);
    let heard = heard(known, network, device, time, moment.readings.before);
    corrects(network, device, shown, moment, &heard, said)
}

/// What the device has heard since its last correction point, by a clock that read this a unit of time ago.
pub(crate) fn heard(
    known: &Known,
    network: &Network,
    device: DeviceId,
    time: u64,
    before: u64,
) -> Heard
    requires range { IsInRange network.now }
    requires known { KnowsSome network.now known.now }
    requires there { HasDevice network.now device }
    ensures { (befallen : List Event) (hs : List Happening) → IsKnown network.now befallen hs known.now
        → IsFounded place_of (IsDue (scenario_under network.now befallen)) hs → NoneLater time hs
        → before ≡ (scenario_under network.now befallen).reading device (time - 1)
        → IsHeard (scenario_under network.now befallen) hs device time result }
{
    known
        .standings
        .before_rank(device, time, Rank::Corrected)
        .heard_since(network, before)
}

/// Is this how the device's clock stands at the time, and is that the end?
pub(crate) fn is_end_clock(
    known: &Known,
    network: &Network,
    device: DeviceId,
    time: Units,
    said: EndClock,
) -> bool
    requires known { KnowsSome network.now known.now }
    requires there { HasDevice network.now device }
    requires begun { pos 0 ≤ℤ time.0 }
    requires limit { amount time ≤ 2 ^ 60 }
    ensures { (befallen : List Event) (hs : List Happening) → IsKnown network.now befallen hs known.now
        → NoneLater (amount time) hs → IsTrue result ↔ IsClockRecord (scenario_under network.now befallen) hs device
        time said.reading said.adjustment said.state }
{
    let shown = known.standings.latest(device);
    let reading = known.events.reading(device, time.amount());
    shows_clock(network, device, shown, reading, is_end(known, time), said)
}

/// Is it the time of the end?
fn is_end(known: &Known, time: Units) -> bool
    ensures { (network : NetworkValue) (befallen : List Event) (hs : List Happening)
        → IsKnown network befallen hs known.now → IsTrue result ↔ EndsAt befallen time }
{
    is_same(time, known.end)
}

fn is_same(time: Units, other: Units) -> bool
    ensures { IsTrue result ↔ (time ≡ other) }
{
    time == other
}
