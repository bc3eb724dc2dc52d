ghost use Rattle.std.specs.Prelude.{◌+ℤ◌, ◌↔◌, ◌≡◌, IsTrue, List, Some, ℕ};
ghost use Rattle.audit_devices.specs.clocks.{Moments.StandsAt, Points.{ComesTo, HasPoint, IsHeard}};
ghost use Rattle.audit_law.specs.law.CorrectionNumbers.{ComesToPoint, next_number, standing_at};
ghost use Rattle.{audit_law.specs.law.DueRecords.IsCorrectedRecord, run_law.specs.records.Happenings.Happening};
ghost use Rattle.{device_rules.specs.Answers.{standing_of, verdict_as}, run_law.specs.scenario.Scenarios.Scenario};
ghost use Rattle.{device_rules.specs.Widths.IsWide, net_plan.specs.declared.network.Network.{Network as NetworkValue}};
ghost use Rattle.net_plan.specs.{Ranges.IsInRange, declared.ids.DeviceId.{DeviceId as DeviceIdValue}};
ghost use Rattle.sync_state.specs.{Standing.next_point, declared.answers.Verdict.{TheVariants.Corrected, Verdict}};

use crate::Shown;
use crate::clocks::{DeviceMoment, reaches};
use device_rules::{PointStanding, PointVerdict, correction_value, verdict};
use net_plan::{DeviceId, Network};
use sync_state::State;
use sync_state::membership::Heard;
use tte_units::Units;

/// A correction point, and what it comes to.
#[derive(Clone, Copy, PartialEq, Eq)]
pub struct Point {
    pub cycle: u64,
    pub verdict: PointVerdict,
}

/// What a record says of a correction.
#[derive(Clone, Copy)]
pub struct Correction {
    pub cycle: u32,
    pub by: Units,
    /// The adjustment that it leads to.
    pub adjustment: Units,
}

/// The cycle of the correction point that comes to the device at the moment. This is what the records of earlier times
/// show.
pub fn coming_cycle(network: &Network, shown: &Shown, moment: DeviceMoment) -> Option<u64>
    requires { IsInRange network.now }
    ensures { (s : Scenario) (hs : List Happening) (device : DeviceIdValue) (t cycle : ℕ)
        → StandsAt s hs network.now device t moment shown.now
        → (result ≡ Some cycle) ↔ HasPoint s hs device t cycle }
{
    if moment.broken {
        return None;
    }
    let cycle = next_point(network, shown, moment)?;
    if reaches(shown, moment.readings, correction_value(network, cycle)) {
        Some(cycle)
    } else {
        None
    }
}

/// The correction point that comes to the device at the moment, and what it comes to. This is what the records of
/// earlier times show, and what the device has heard since its last correction point.
pub fn coming_point(
    network: &Network,
    device: DeviceId,
    shown: &Shown,
    moment: DeviceMoment,
    heard: &Heard,
) -> Option<Point>
    requires { IsInRange network.now }
    ensures { (s : Scenario) (hs : List Happening) (t cycle : ℕ) (verdict : Verdict)
        → StandsAt s hs network.now device t moment shown.now → IsHeard s hs device t heard.now
        → ComesTo result cycle verdict ↔ ComesToPoint s hs device t cycle verdict }
{
    let cycle = coming_cycle(network, shown, moment)?;
    let standing = standing(shown, moment, cycle);
    Some(Point {
        cycle,
        verdict: verdict(network, device, &standing, heard),
    })
}

/// Is the device's clock corrected so at the moment? The rest is as for `coming_point`.
pub fn corrects(
    network: &Network,
    device: DeviceId,
    shown: &Shown,
    moment: DeviceMoment,
    heard: &Heard,
    said: Correction,
) -> bool
    requires { IsInRange network.now }
    ensures { (s : Scenario) (hs : List Happening) (t : ℕ) → StandsAt s hs network.now device t moment shown.now
        → IsHeard s hs device t heard.now
        → IsTrue result ↔ IsCorrectedRecord s hs device t said.cycle said.by said.adjustment }
{
    comes_by(coming_point(network, device, shown, moment, heard), said) && is_sum(shown, said)
}

/// Is the point that of the cycle, and does it come to the correction?
fn comes_by(point: Option<Point>, said: Correction) -> bool
    ensures { IsTrue result ↔ ComesTo point said.cycle (Corrected said.by) }
{
    match point {
        Some(point) => point.cycle == u64::from(said.cycle) && is_by(point.verdict, said.by),
        None => false,
    }
}

/// Does the point come to a correction by this?
fn is_by(verdict: PointVerdict, by: Units) -> bool
    ensures { IsTrue result ↔ (verdict_as verdict ≡ Corrected by) }
{
    match verdict {
        PointVerdict::Corrected(found) => found == i128::from(by.0),
        PointVerdict::Cleared | PointVerdict::SyncClique | PointVerdict::AsyncClique => false,
    }
}

/// Does the correction lead to the adjustment from that which is shown?
fn is_sum(shown: &Shown, said: Correction) -> bool
    ensures { IsTrue result ↔ (said.adjustment.0 ≡ (shown.now.adjustment +ℤ said.by.0)) }
{
    i128::from(said.adjustment.0) == shown.adjustment() + i128::from(said.by.0)
}

/// The cycle of the device's next correction point, where its state has one.
fn next_point(network: &Network, shown: &Shown, moment: DeviceMoment) -> Option<u64>
    requires { IsInRange network.now }
    ensures { (s : Scenario) (hs : List Happening) (device : DeviceIdValue) (t : ℕ)
        → StandsAt s hs network.now device t moment shown.now → result ≡ next_point (standing_at s hs device t) }
{
    match shown.state_before(moment.turned_on) {
        State::Off | State::Integrating => None,
        State::Joining | State::Synchronised => {
            Some(shown.next_number(network, moment.readings.before))
        }
    }
}

/// Where the device stands at its correction point of the cycle.
fn standing(shown: &Shown, moment: DeviceMoment, cycle: u64) -> PointStanding
    ensures fits { IsWide result.adjustment }
    ensures is { (s : Scenario) (hs : List Happening) (network : NetworkValue) (device : DeviceIdValue) (t : ℕ)
        → StandsAt s hs network device t moment shown.now → cycle ≡ next_number s hs device t
        → standing_of network device result ≡ standing_at s hs device t }
{
    PointStanding {
        state: shown.state_before(moment.turned_on),
        adjustment: shown.adjustment(),
        number: cycle,
        integrated: shown.integrated(),
    }
}
