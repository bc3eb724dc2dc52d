//! How compressed frames are heard.

ghost use Rattle.std.specs.Prelude.{◌≡◌, ◌&&◌, ◌+ℤ◌, nat_le, pos};
ghost use Rattle.{device_rules.specs.Widths.IsWide, run_law.specs.scenario.Devices.plan_of};
ghost use Rattle.net_plan.specs.Ranges.{IsInRange};
ghost use Rattle.{run_law.specs.control.Collections.observation_window, sync_state.specs.membership.Members.count_of};
ghost use Rattle.run_law.specs.control.Hearing.{heard_as, heard_by_schedule, heard_enough, is_in_schedule, last_cycle};

use crate::network::{expected_at, precision};
use crate::standpoint::shown;
use net_plan::{DeviceId, Network};
use run_law::Judgement;
use sync_state::membership::count;
use sync_state::{LAST_CYCLE, State};
use tte_units::frames::Members;

/// How the device, in this state and with this adjustment, hears a frame of a cycle and members at a point.
///
/// The adjustment and the point lie from -2^80 to 2^80.
pub fn heard_as(
    network: &Network,
    device: DeviceId,
    state: State,
    adjustment: i128,
    point: i128,
    cycle: u32,
    members: Members,
) -> Judgement
    requires range { IsInRange network.now }
    requires adjustment { IsWide adjustment }
    requires point { IsWide point }
    ensures { result ≡ heard_as (plan_of network.now device) (observation_window network.now) state adjustment point
        cycle members }
{
    match state {
        State::Off => Judgement::Ignored,
        State::Integrating => heard_at_threshold(network, cycle, members),
        State::Joining => heard_by_schedule(network, device, cycle, shown(point, adjustment)),
        State::Synchronised => heard_by_schedule(network, device, cycle, shown(point, adjustment)),
    }
}

/// How a device that looks for the common time hears it.
fn heard_at_threshold(network: &Network, cycle: u32, members: Members) -> Judgement
    ensures { result ≡ heard_enough (nat_le network.now.sync_threshold (count_of members) && nat_le cycle last_cycle) }
{
    if network.sync_threshold <= count(members) && cycle <= LAST_CYCLE {
        Judgement::Integrates
    } else {
        Judgement::Ignored
    }
}

/// How a device that has the common time hears it, at this local value.
fn heard_by_schedule(network: &Network, device: DeviceId, cycle: u32, value: i128) -> Judgement
    requires { IsInRange network.now }
    ensures { result ≡ heard_by_schedule (nat_le cycle last_cycle
        && is_in_schedule (plan_of network.now device) (observation_window network.now) cycle value) }
{
    if cycle <= LAST_CYCLE && is_in_schedule(network, device, cycle, value) {
        Judgement::Within
    } else {
        Judgement::Outside
    }
}

/// Is the local value where the frame of the cycle is expected, up to the precision?
fn is_in_schedule(network: &Network, device: DeviceId, cycle: u32, value: i128) -> bool
    requires { IsInRange network.now }
    ensures { result ≡ is_in_schedule (plan_of network.now device) (observation_window network.now) cycle value }
{
    let expected = expected_at(network, device, u64::from(cycle));
    let precision = precision(network);
    expected - precision <= value && value <= expected + precision
}
