ghost use Rattle.std.specs.Prelude.{◌↔◌, ◌≡◌, IsTrue, List, false, option_and_then, ℕ};
ghost use Rattle.{audit_devices.specs.Taking.taking_of, net_plan.specs.declared.ids.VlId.VlId};
ghost use Rattle.audit_sweep.specs.records.dispatches.Dispatched.{IsAcceptedLast, IsAtHand, holds, is_last};
ghost use Rattle.run_law.specs.{records.Happenings.Happening, scenario.Devices.is_end, timed.Dispatching.last_accepted};

use audit_devices::Taking;
use device_rules::is_end;
use net_plan::{DeviceId, Network};

/// Has the device the frame of the cycle at hand: as its sender, with no cause, or as a switch that took it last, by
/// this cause?
pub fn is_at_hand(
    network: &Network,
    device: DeviceId,
    sender: DeviceId,
    accepted: Option<Taking>,
    cause: u64,
    cycle: u64,
) -> bool
    ensures { (hs : List Happening) (vl : VlId) (t : ℕ) → IsAcceptedLast network.now hs device vl t accepted
        → IsTrue result ↔ IsAtHand network.now hs device sender vl t cause cycle }
{
    holds(
        sender.0 == device.0,
        cause,
        is_end(network, device),
        is_last(accepted, cause, cycle),
    )
}

fn holds(sends: bool, cause: u64, end: bool, last: bool) -> bool
    ensures { result ≡ holds sends cause end last }
{
    (sends && cause == 0) || (!end && last)
}

/// Is it the frame that was taken last, by this record and in this cycle?
fn is_last(accepted: Option<Taking>, cause: u64, cycle: u64) -> bool
    ensures { result ≡ is_last accepted cause cycle }
{
    match accepted {
        Some(taking) => taking.number == cause && u64::from(taking.cycle) == cycle,
        None => false,
    }
}
