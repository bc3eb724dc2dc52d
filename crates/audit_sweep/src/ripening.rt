//! What becomes of control frames that are permanent.

ghost use Rattle.std.specs.Prelude.{◌-◌, ◌^◌, ◌↔◌, ◌≡◌, ◌≤◌, IsTrue, List, pos, ℕ};
ghost use Rattle.{audit_law.specs.events.Readings.{clock_reading, scenario_under}, drift_clock.specs.Reach.IsReach};
ghost use Rattle.{audit_sweep.specs.Knowing.{IsKnown, KnowsSome}, drift_clock.specs.transparent.Points.point_of};
ghost use Rattle.audit_sweep.specs.{Passing.IsPassable, Ripenings.{IsPermanentOrNone, IsPointReached, waiting_clock}};
ghost use Rattle.net_plan.specs.{Belonging.HasDevice, Ranges.IsInRange, declared.event.Event.Event};
ghost use Rattle.run_law.specs.records.Happenings.{Happening};
ghost use Rattle.tte_units.specs.Amount.{amount};

use crate::known::Known;
use crate::passage::Passage;
use crate::records::Kept;
use audit_law::events::reading_law;
use device_rules::waits_for;
use net_plan::{DeviceId, LinkId, Network};
use tte_units::Units;
use tte_units::frames::Pcf;

/// A frame that is permanent at its point.
#[derive(Clone, Copy)]
pub(crate) struct PermanentFrame {
    pub(crate) frame: Pcf,
    pub(crate) point: Units,
}

/// The frame of the other record, if it is permanent so, at a device that waits for it and is not broken.
pub(crate) fn permanent_frame(
    known: &Known,
    network: &Network,
    passage: Passage,
) -> Option<PermanentFrame>
    requires range { IsInRange network.now }
    requires known { KnowsSome network.now known.now }
    requires passable { IsPassable network.now passage }
    ensures { (befallen : List Event) (hs : List Happening) → IsKnown network.now befallen hs known.now
        → IsPermanentOrNone (scenario_under network.now befallen) hs passage result }
{
    let kept = match known.records.get(passage.cause) {
        Some(kept) => kept,
        None => return None,
    };
    let frame = match kept.frame {
        Some(frame) => frame,
        None => return None,
    };
    let clock = match waiting_clock(kept.kept, passage.device, passage.link) {
        Some(clock) => clock,
        None => return None,
    };
    if !waits_for(network, passage.device, passage.link) {
        return None;
    }
    if known.events.is_broken(passage.device, passage.time) {
        return None;
    }
    match point_reached(
        known,
        network,
        passage.device,
        kept.time,
        clock,
        passage.time,
    ) {
        Some(point) => Some(PermanentFrame { frame, point }),
        None => None,
    }
}

/// The transparent clock of a frame that arrived at the device by the link.
fn waiting_clock(kept: Kept, device: DeviceId, link: LinkId) -> Option<u64>
    ensures { result ≡ waiting_clock device link kept }
{
    match kept {
        Kept::Arrived(other, by, clock) => {
            if device.0 == other.0 && link.0 == by.0 {
                Some(clock)
            } else {
                None
            }
        }
        Kept::On(_)
        | Kept::Send(_, _)
        | Kept::Permanent(_, _)
        | Kept::Compressed(_, _)
        | Kept::Sent(_)
        | Kept::Corrected(_)
        | Kept::Left(_, _)
        | Kept::TtSent(_, _)
        | Kept::Accepted(_, _, _)
        | Kept::Delivered(_, _, _)
        | Kept::Other => None,
    }
}

/// The point of a frame that arrived then with this transparent clock, if the device's clock first reads it at the
/// time.
fn point_reached(
    known: &Known,
    network: &Network,
    device: DeviceId,
    arrived: u64,
    clock: u64,
    time: u64,
) -> Option<Units>
    requires range { IsInRange network.now }
    requires known { KnowsSome network.now known.now }
    requires there { HasDevice network.now device }
    requires limit { time ≤ 2 ^ 60 }
    requires young { clock ≤ amount network.now.dmax }
    ensures { (befallen : List Event) (hs : List Happening) → IsKnown network.now befallen hs known.now
        → IsPointReached (clock_reading network.now befallen device) network.now.dmax.0 arrived clock time result }
{
    reading_law();
    if time < arrived {
        return None;
    }
    let events = &known.events;
    let point = point_of(network, events.reading(device, arrived), clock);
    let now = events.reading(device, time);
    let before = events.reading(device, time.saturating_sub(1));
    if is_first_read(arrived, time, before, now, point) {
        Some(point)
    } else {
        None
    }
}

/// The point of a frame that arrived with this transparent clock where the clock read this.
fn point_of(network: &Network, reading: u64, clock: u64) -> Units
    requires range { IsInRange network.now }
    requires low { reading ≤ 2 ^ 61 }
    requires young { clock ≤ amount network.now.dmax }
    ensures { result.0 ≡ point_of (pos reading) clock network.now.dmax.0 }
{
    Units(reading as i64 + (network.dmax.0 - clock as i64))
}

/// Whether a clock, which never falls, first reads the value or more at the time, none before the other.
fn is_first_read(arrived: u64, time: u64, before: u64, now: u64, value: Units) -> bool
    requires { arrived ≤ time }
    ensures { (reading : ℕ → ℕ) → ((t u : ℕ) → t ≤ u → reading t ≤ reading u) → now ≡ reading time
        → before ≡ reading (time - 1) → IsTrue result ↔ IsReach reading (pos arrived) value.0 (pos time) }
{
    let value = i128::from(value.0);
    value <= i128::from(now) && (time == arrived || i128::from(before) < value)
}
