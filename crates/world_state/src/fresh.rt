ghost use Rattle.std.specs.Prelude.{◌≡◌, length, replicate, map, IfOk, false, All, ◌≤◌};
ghost use Rattle.{net_plan.specs.Ranges.IsInRange, world_state.specs.Beginning.first_way};
ghost use Rattle.tte_units.specs.Amount.{amount};

use crate::OutOfMemory;
use crate::contents::WayState;
use drift_clock::Clock;
use net_plan::Network;
use std::alloc::Global;

/// A fresh clock for each device.
pub fn fresh_clocks<C: Clock>(alloc: Global, network: &Network) -> Result<Vec<C>, OutOfMemory>
    requires { IsInRange network.now }
    ensures each { IfOk result
        (λ clocks. clocks.items ≡ replicate (length network.now.device) (C.fresh (amount network.now.grain))) }
    ensures unstepped { IfOk result (λ clocks. All (λ c. C.last_step c ≤ 0) clocks.items) }
{
    let mut clocks = Vec::new(alloc);
    for _ in network.device.as_slice() {
        if clocks.push(C::fresh(network.grain)).is_err() {
            return Err(OutOfMemory);
        }
    }
    Ok(clocks)
}

/// The ways of the links as they are at first: the least delay, no hold, and not cut.
pub fn first_ways(alloc: Global, network: &Network) -> Result<Vec<WayState>, OutOfMemory>
    requires { IsInRange network.now }
    ensures { IfOk result (λ ways. ways.items ≡ map first_way network.now.link) }
{
    let mut ways = Vec::new(alloc);
    for link in network.link.as_slice() {
        let way = WayState {
            delay: link.wire.amount(),
            hold: 0,
            cut: false,
        };
        if ways.push(way).is_err() {
            return Err(OutOfMemory);
        }
    }
    Ok(ways)
}

/// None of so many devices is broken.
pub fn none_broken(alloc: Global, devices: usize) -> Result<Vec<bool>, OutOfMemory>
    ensures { IfOk result (λ broken. broken.items ≡ replicate devices false) }
{
    Ok(vec![in alloc; false; devices]?)
}
