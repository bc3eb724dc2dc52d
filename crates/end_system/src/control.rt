//! How an end system judges protocol control frames (SAE AS6802).

ghost use Rattle.std.specs.Prelude.{◌&&◌, ◌+ℤ◌, ◌+◌, ◌^◌, ◌≡◌, ◌≤ℤ◌, ◌≤◌, nat_le, neg_ℤ, pos};
ghost use Rattle.sync_state.specs.{correction.Deviation.IsSmall, declared.state.State.TheVariants.Off};
ghost use Rattle.end_system.specs.{Controls.{arrival_of, frame_arrival_of, heard_by}, Owns.HasOwnRange};
ghost use Rattle.run_law.specs.control.{Hearing.{heard_by_schedule, is_in_schedule, last_cycle}, Permanence.ripe_as};
ghost use Rattle.tte_units.specs.Amount.{amount};

use crate::own::Own;
use device_rules::refused;
use drift_clock::transparent::{arrive, permanence};
use net_plan::LinkId;
use pcf_codec::PcfRefusal;
use run_law::{Arrival, Reason, Ripe};
use sync_state::membership::count;
use sync_state::{LAST_CYCLE, State, Sync};
use tte_units::Units;
use tte_units::frames::{Pcf, PcfKind};

/// What becomes of a frame that arrives by the link at the reading, at a device that takes part.
pub fn arrival(own: &Own, reading: Units, link: LinkId, decoded: Result<Pcf, PcfRefusal>) -> Arrival
    requires range { HasOwnRange own.now }
    requires low { pos 0 ≤ℤ reading.0 }
    requires high { reading.0 ≤ℤ pos (2 ^ 60 + 2 ^ 51) }
    ensures { result ≡ arrival_of own.now reading link decoded }
{
    match decoded {
        Ok(frame) => frame_arrival(own, reading, link, frame),
        Err(refusal) => Arrival::Dropped(refused(refusal)),
    }
}

fn frame_arrival(own: &Own, reading: Units, link: LinkId, mut frame: Pcf) -> Arrival
    requires range { HasOwnRange own.now }
    requires low { pos 0 ≤ℤ reading.0 }
    requires high { reading.0 ≤ℤ pos (2 ^ 60 + 2 ^ 51) }
    ensures { result ≡ frame_arrival_of own.now reading link frame }
{
    if frame.kind != PcfKind::Integration {
        return Arrival::Dropped(Reason::ColdStart);
    }
    if frame.priority != own.frame.priority || frame.domain != own.frame.domain {
        return Arrival::Dropped(Reason::Domain);
    }
    match arrive(frame.clock, own.wire(link), own.dmax) {
        Some(clock) => {
            frame.clock = clock;
            Arrival::Waits(frame, permanence(reading, clock, own.dmax))
        }
        None => Arrival::Dropped(Reason::Old),
    }
}

/// How the device hears a frame with this permanence point.
pub fn heard_as(own: &Own, sync: &Sync, frame: &Pcf, point: Units) -> Ripe
    requires range { HasOwnRange own.now }
    requires small { IsSmall sync.now.adjustment.0 }
    requires low { neg_ℤ (pos (2 ^ 40)) ≤ℤ point.0 }
    requires high { point.0 ≤ℤ pos (2 ^ 60 + 2 ^ 51) }
    ensures { result ≡ heard_by own.now sync.now frame.now point }
{
    match sync.state() {
        State::Off => Ripe::Ignored,
        State::Integrating => {
            if count(frame.members) >= own.plan.threshold && frame.cycle <= LAST_CYCLE {
                Ripe::Integrates
            } else {
                Ripe::Ignored
            }
        }
        State::Joining => heard_by_schedule(own, sync, frame, point),
        State::Synchronised => heard_by_schedule(own, sync, frame, point),
    }
}

/// How a device that has the common time hears it.
fn heard_by_schedule(own: &Own, sync: &Sync, frame: &Pcf, point: Units) -> Ripe
    requires range { HasOwnRange own.now }
    requires small { IsSmall sync.now.adjustment.0 }
    requires low { neg_ℤ (pos (2 ^ 40)) ≤ℤ point.0 }
    requires high { point.0 ≤ℤ pos (2 ^ 60 + 2 ^ 51) }
    ensures { result ≡ ripe_as
        (heard_by_schedule (nat_le frame.now.cycle last_cycle
        && is_in_schedule own.now.plan (pos (amount own.now.precision)) frame.now.cycle
        (point.0 +ℤ sync.now.adjustment.0))) }
{
    let value = local_at(point, sync.adjustment());
    if frame.cycle <= LAST_CYCLE && own.is_in_time(frame.cycle, value) {
        Ripe::Within
    } else {
        Ripe::Outside
    }
}

/// What a local clock of this adjustment shows at the point.
pub fn local_at(point: Units, adjustment: Units) -> Units
    requires small { IsSmall adjustment.0 }
    requires low { neg_ℤ (pos (2 ^ 40)) ≤ℤ point.0 }
    requires high { point.0 ≤ℤ pos (2 ^ 60 + 2 ^ 51) }
    ensures { result.0 ≡ (point.0 +ℤ adjustment.0) }
{
    Units(point.0 + adjustment.0)
}
