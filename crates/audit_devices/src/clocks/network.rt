ghost use Rattle.std.specs.Prelude.{◌*◌, ◌≡◌, pos};
ghost use Rattle.{net_plan.specs.Ranges.IsInRange, tte_units.specs.Amount.amount};

use net_plan::Network;

/// The local value at which the cycle begins.
pub(crate) fn begun(network: &Network, cycle: u32) -> i128
    requires { IsInRange network.now }
    ensures { result ≡ pos (cycle * amount network.now.cycle) }
{
    i128::from(u64::from(cycle)) * i128::from(network.cycle.amount())
}
