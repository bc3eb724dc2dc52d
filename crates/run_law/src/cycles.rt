//! The cycles of local clocks.
ghost use Rattle.std.specs.Prelude.{◌^◌, ◌≡◌, ◌≤ℤ◌, pos};
ghost use Rattle.{net_plan.specs.Ranges.IsInRange, run_law.specs.device.Standpoints.offset_in_cycle};

use net_plan::Network;

/// The place of a local value in its cycle.
pub fn place_in_cycle(network: &Network, value: i128) -> i128
    requires { IsInRange network.now }
    ensures value { result ≡ offset_in_cycle network.now value }
    ensures low { pos 0 ≤ℤ result }
    ensures high { result ≤ℤ pos (2 ^ 40) }
{
    value.rem_euclid(i128::from(network.cycle.0))
}
