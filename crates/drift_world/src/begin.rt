ghost use Rattle.std.specs.Prelude.{◌≡◌, length, IfOk, false};
ghost use Rattle.{drift_world.specs.Beginning.IsFirstState, net_plan.specs.Ranges.IsInRange};

use crate::state::State;
use device_rules::frames::MadeFrame;
use drift_clock::Clock;
use net_plan::Network;
use run_law::Machine;
use std::alloc::Global;
use std::collections::VecDeque;
use world_state::OutOfMemory;
use world_state::frames::Frames;
use world_state::fresh::{first_ways, fresh_clocks, none_broken};
use world_state::kept::all_kept;
use world_state::queue::UnderWay;
use world_state::shelves::Shelves;
use world_state::timers::Timers;

/// The state of a network at time 0.
pub fn fresh_state<C: Clock, M: Machine + Drop>(
    alloc: Global,
    network: &Network,
    machines: Vec<M>,
) -> Result<State<C, M>, OutOfMemory>
    requires range { IsInRange network.now }
    requires each { length machines.items ≡ length network.now.device }
    ensures { IfOk result (λ state. IsFirstState C.fresh C.last_step network.now machines.items state) }
{
    let clocks = fresh_clocks(alloc, network)?;
    let ups = first_ways(alloc, network)?;
    let downs = first_ways(alloc, network)?;
    let broken = none_broken(alloc, machines.len())?;
    let timers = Timers::new(alloc, 2 * machines.len())?;
    let machines = all_kept(alloc, machines)?;
    Ok(State {
        clocks,
        machines,
        broken,
        ups,
        downs,
        under_way: UnderWay::new(alloc),
        waiting: Frames::new(alloc),
        stored: Shelves::new(alloc),
        spare: Vec::new(alloc),
        made: MadeFrame::new(),
        timers,
        early: true,
        pending: false,
        befell: Vec::new(alloc),
        settled: VecDeque::new(alloc),
        time: 0,
        lines: 0,
        given: 0,
        ended: false,
        shown: 0,
    })
}
