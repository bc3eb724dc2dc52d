ghost use Rattle.std.specs.Prelude.{◌↔◌, IsTrue};
ghost use Rattle.world_state.specs.{Reaching.IsFirstReached, Ripening.IsReached};

use crate::contents::Waits;
use crate::frames::Frames;
use net_plan::DeviceId;

/// Does it wait at the device, and has the reading come to its point?
fn is_reached(waits: &Waits, device: DeviceId, reading: u64) -> bool
    ensures { IsTrue result ↔ IsReached device reading waits.now }
{
    waits.device.0 == device.0 && i128::from(waits.point.0) <= i128::from(reading)
}

/// The first of the frames that wait at the device and are reached.
#[inline(always)]
pub fn first_reached(waiting: &Frames, device: DeviceId, reading: u64) -> Option<Waits>
    ensures { IsFirstReached waiting.now device reading result }
{
    let Some(first) = waiting.first(device) else {
        return None;
    };
    if is_reached(first, device, reading) {
        Some(*first)
    } else {
        None
    }
}
