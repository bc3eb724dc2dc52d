ghost use Rattle.std.specs.Prelude.{IfOk};
ghost use Rattle.net_plan.specs.Ranges.{IsInRange};

use net_plan::Network;
use std::alloc::Global;
use std::test::Fail;
use worked_network::{edited, network_of, numbers};

const DEVICES: &str = "device = [
 {name=\"m1\", role=\"master\", mac=\"020000000011\", member=0, start=0},
 {name=\"ca\", role=\"cm\", mac=\"020000000022\", channel=\"a\", start=0},
]
link = [
 {name=\"m1_a\", child=\"m1\", parent=\"ca\", wire=32768000, jitter=1310720, hold=1310720000, speed=100},
]
";

const SCHEDULE: &str = "vl = [
 {name=\"v1\", id=1, length=60, ethertype=2048, sender=\"m1\", period=1, phase=0},
]
row = [
 {vl=\"v1\", link=\"m1_a\", way=\"up\", offset=26542080000},
]
";

fn lone(alloc: Global, schedule: &str) -> Result<Network, Fail>
    ensures { IfOk result IsInRange }
{
    let text = format!(in alloc; "{}{DEVICES}{schedule}", numbers())?;
    let text = edited(
        alloc,
        text.as_str(),
        &[("sync_threshold = 3", "sync_threshold = 1")],
    )?;
    Ok(network_of(alloc, text.as_str())?)
}

/// A master below a compression master.
pub(super) fn master(alloc: Global) -> Result<Network, Fail>
    ensures { IfOk result IsInRange }
{
    lone(alloc, "")
}

/// A master that sends a frame of a virtual link in each cycle.
pub(super) fn sender(alloc: Global) -> Result<Network, Fail>
    ensures { IfOk result IsInRange }
{
    lone(alloc, SCHEDULE)
}
