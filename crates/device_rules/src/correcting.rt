//! What correction points come to, and how a device joins.

ghost use Rattle.std.specs.Prelude.{◌-ℤ◌, ◌^◌, ◌↔◌, ◌≡◌, ◌≤ℤ◌, ◌≤◌, IfSome, IsTrue, neg_ℤ, option_map, pos};
ghost use Rattle.sync_state.specs.correction.{Correction.correction_of, Deviation.deviation_of};
ghost use Rattle.net_plan.specs.{Ranges.IsInRange, declared.{ids.DeviceId.DeviceId, network.Network.Network}};
ghost use Rattle.run_law.specs.{control.Corrections.correction_value, scenario.Devices.plan_of};
ghost use Rattle.sync_state.specs.{Plan.expected_at, Standing.IsAtIntegration, Verdicts.{HasVerdict, deviation_on}};
ghost use Rattle.device_rules.specs.{Answers.{in_units, standing_of, verdict_as}, Widths.{IsFar, IsWide}};

use crate::network::{begun, expected_at};
use net_plan::{DeviceId, Network};
use sync_state::membership::Heard;
use sync_state::{State, is_outnumbered};
use tte_units::Units;
use tte_units::frames::Channel;

/// What a correction point comes to.
#[derive(Clone, Copy, PartialEq, Eq)]
pub enum PointVerdict {
    /// The cycle is the one whose frame the device joined by.
    Cleared,
    /// No channel had a frame of enough masters: the device is alone.
    SyncClique,
    /// At least as many masters were heard at another time as at this device's.
    AsyncClique,
    /// The adjustment grows by this.
    Corrected(i128),
}

/// Where the synchronisation of a device stands when a correction point comes.
#[derive(Clone, Copy)]
pub struct PointStanding {
    pub state: State,
    /// What the local clock shows beyond the reading, from -2^80 to 2^80.
    pub adjustment: i128,
    /// The cycle of the correction point.
    pub number: u64,
    /// The cycle of the frame that integrated the device last.
    pub integrated: Option<u32>,
}

/// What the local clock shows at the correction point of the cycle.
pub fn correction_value(network: &Network, cycle: u64) -> i128
    requires { IsInRange network.now }
    ensures value { result ≡ correction_value network.now cycle }
    ensures low { pos 0 ≤ℤ result }
    ensures far { IsFar result }
{
    (begun(network, cycle) + u128::from(network.correction.amount())) as i128
}

/// What the correction point of the device comes to, by what it has heard since the last one.
pub fn verdict(
    network: &Network,
    device: DeviceId,
    standing: &PointStanding,
    heard: &Heard,
) -> PointVerdict
    requires range { IsInRange network.now }
    requires adjustment { IsWide standing.now.adjustment }
    ensures { HasVerdict (standing_of network.now device standing.now) heard.now (verdict_as result) }
{
    if is_at_integration(standing) {
        return PointVerdict::Cleared;
    }
    let a = deviation_on(network, device, standing, heard, Channel::A);
    let b = deviation_on(network, device, standing, heard, Channel::B);
    match correction(a, b) {
        None => PointVerdict::SyncClique,
        Some(_) if is_outnumbered(heard) => PointVerdict::AsyncClique,
        Some(by) => PointVerdict::Corrected(by),
    }
}

/// The adjustment by which the device's clock shows at the point what is expected there of the frame of the cycle.
pub fn joined_adjustment(network: &Network, device: DeviceId, cycle: u32, point: Units) -> i128
    requires { IsInRange network.now }
    ensures value { result ≡ (expected_at (plan_of network.now device) cycle -ℤ point.0) }
    ensures wide { IsWide result }
{
    expected_at(network, device, u64::from(cycle)) - i128::from(point.0)
}

/// Is the correction point that of the cycle by whose frame the device joined?
fn is_at_integration(standing: &PointStanding) -> bool
    ensures { (network : Network) (device : DeviceId)
        → IsTrue result ↔ IsAtIntegration (standing_of network device standing.now) }
{
    match standing.integrated {
        Some(cycle) => standing.state == State::Joining && u64::from(cycle) == standing.number,
        None => false,
    }
}

/// How far the clock is behind by the channel's best frame, where the channel qualifies.
fn deviation_on(
    network: &Network,
    device: DeviceId,
    standing: &PointStanding,
    heard: &Heard,
    channel: Channel,
) -> Option<i128>
    requires range { IsInRange network.now }
    requires adjustment { IsWide standing.now.adjustment }
    ensures value { in_units result
        ≡ deviation_on (standing_of network.now device standing.now) heard.now channel }
    ensures far { IfSome result IsFar }
{
    if !heard.qualified(channel, network.sync_threshold) {
        return None;
    }
    let frame = heard.best(channel)?;
    let expected = expected_at(network, device, standing.number);
    Some(deviation(expected, frame.point, standing.adjustment))
}

/// How far a clock of this adjustment, which should have shown the expected value at the point, is behind.
fn deviation(expected: i128, point: Units, adjustment: i128) -> i128
    requires low { pos 0 ≤ℤ expected }
    requires high { expected ≤ℤ pos (2 ^ 105) }
    requires adjustment { IsWide adjustment }
    ensures value { result ≡ deviation_of expected point.0 adjustment }
    ensures far { IsFar result }
{
    expected - i128::from(point.0) - adjustment
}

/// The mean of both deviations, rounded down, or the one that is there.
fn correction(a: Option<i128>, b: Option<i128>) -> Option<i128>
    requires a { IfSome a IsFar }
    requires b { IfSome b IsFar }
    ensures value { in_units result ≡ correction_of (in_units a) (in_units b) }
{
    match (a, b) {
        (Some(a), Some(b)) => Some((a + b).div_euclid(2)),
        (Some(only), None) | (None, Some(only)) => Some(only),
        (None, None) => None,
    }
}
