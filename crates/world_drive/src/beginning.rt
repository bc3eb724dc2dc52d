ghost use Rattle.std.specs.Prelude.{◌≡◌, true, [], IfOk};
ghost use Rattle.world_drive.specs.exact.Worlds.{StandsExact};

use crate::exact::ExactWorld;
use crate::machines::machines_of;
use drift_world::{OutOfMemory, World};
use schedule_tables::Accepted;
use std::alloc::Global;

/// The world of a network at time 0, which nothing has befallen.
///
/// The error is that memory ran out.
pub fn begin_world<'a>(alloc: Global, accepted: &'a Accepted) -> Result<ExactWorld<'a>, OutOfMemory>
    ensures stands { IfOk result (λ world. StandsExact accepted.now world [] []) }
    ensures fresh { IfOk result (λ world. (world.now ≡ 0) × (world.early ≡ true)) }
{
    let Ok(machines) = machines_of(alloc, accepted) else {
        return Err(OutOfMemory);
    };
    World::begin(alloc, accepted, machines)
}
