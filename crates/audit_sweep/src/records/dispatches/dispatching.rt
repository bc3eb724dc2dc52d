ghost use Rattle.std.specs.Prelude.{◌*◌, ◌+◌, ◌^◌, ◌↔◌, ◌≡◌, ◌≤◌, IsTrue, List, pos, ℕ};
ghost use Rattle.{audit_devices.specs.clocks.Moments.StandsAt, run_law.specs.records.Happenings.Happening};
ghost use Rattle.audit_sweep.specs.records.dispatches.Dispatched.{IsAcceptedLast, IsReady, IsRowDispatched};
ghost use Rattle.audit_sweep.specs.records.dispatches.{Dispatched.SomeDispatched, Leaving.{AreRowsOn, HavePeriods}};
ghost use Rattle.net_plan.specs.{Ranges.IsInRange, declared.network.Network.{Network as NetworkValue}};
ghost use Rattle.{net_plan.specs.declared.ids.DeviceId.{DeviceId as DeviceIdValue}, tte_units.specs.Amount.amount};
ghost use Rattle.run_law.specs.{device.LocalClocks.Reaches, scenario.Scenarios.Scenario, timed.Dispatching.Dispatches};

use crate::records::dispatches::holding::is_at_hand;
use crate::records::dispatches::{Dispatch, LeavingRow};
use audit_devices::clocks::{DeviceMoment, is_up, reaches};
use audit_devices::{Shown, Taking};
use net_plan::{DeviceId, Network};

/// Does the device dispatch this at the moment, by one of the rows of the link? This is what the records of earlier
/// times show, and the frame of the virtual link that the device accepted last before.
pub fn dispatches(
    network: &Network,
    rows: &[LeavingRow],
    device: DeviceId,
    shown: &Shown,
    moment: DeviceMoment,
    accepted: Option<Taking>,
    dispatch: &Dispatch,
) -> bool
    requires range { IsInRange network.now }
    requires rows { AreRowsOn network.now dispatch.now.link rows.now }
    ensures { (s : Scenario) (hs : List Happening) (t : ℕ) → StandsAt s hs network.now device t moment shown.now
        → IsAcceptedLast network.now hs device dispatch.now.vl t accepted
        → IsTrue result
        ↔ Dispatches s hs device t dispatch.now.link dispatch.now.cause dispatch.now.vl dispatch.now.cycle }
{
    is_up(shown, moment)
        && is_some_dispatched(network, rows, device, shown, moment, accepted, dispatch)
}

/// Does the device dispatch this by one of the rows?
fn is_some_dispatched(
    network: &Network,
    rows: &[LeavingRow],
    device: DeviceId,
    shown: &Shown,
    moment: DeviceMoment,
    accepted: Option<Taking>,
    dispatch: &Dispatch,
) -> bool
    requires range { IsInRange network.now }
    requires periods { HavePeriods rows.now }
    ensures { (s : Scenario) (hs : List Happening) (t : ℕ) → StandsAt s hs network.now device t moment shown.now
        → IsAcceptedLast network.now hs device dispatch.now.vl t accepted
        → IsTrue result ↔ SomeDispatched s network.now hs device t dispatch.now rows.now }
{
    for row in rows {
        if is_dispatched(network, row, device, shown, moment, accepted, dispatch) {
            return true;
        }
    }
    false
}

/// Does the device dispatch this by the row?
fn is_dispatched(
    network: &Network,
    row: &LeavingRow,
    device: DeviceId,
    shown: &Shown,
    moment: DeviceMoment,
    accepted: Option<Taking>,
    dispatch: &Dispatch,
) -> bool
    requires range { IsInRange network.now }
    requires period { 1 ≤ row.now.period }
    ensures { (s : Scenario) (hs : List Happening) (t : ℕ) → StandsAt s hs network.now device t moment shown.now
        → IsAcceptedLast network.now hs device dispatch.now.vl t accepted
        → IsTrue result ↔ IsRowDispatched s network.now hs device t dispatch.now row.now }
{
    row.is_for(device, dispatch)
        && is_ready(network, row, device, shown, moment, accepted, dispatch)
}

/// Does the device's clock reach the row's place in the cycle, and has it the frame at hand?
fn is_ready(
    network: &Network,
    row: &LeavingRow,
    device: DeviceId,
    shown: &Shown,
    moment: DeviceMoment,
    accepted: Option<Taking>,
    dispatch: &Dispatch,
) -> bool
    requires { IsInRange network.now }
    ensures { (s : Scenario) (hs : List Happening) (t : ℕ) → StandsAt s hs network.now device t moment shown.now
        → IsAcceptedLast network.now hs device dispatch.now.vl t accepted
        → IsTrue result ↔ IsReady s network.now hs device t dispatch.now row.now }
{
    reaches_value(
        shown,
        moment,
        dispatch_value(network, row.offset, dispatch.cycle),
    ) && is_at_hand(
        network,
        device,
        row.sender,
        accepted,
        dispatch.cause,
        u64::from(dispatch.cycle),
    )
}

/// Does the device's clock reach the value at the moment?
fn reaches_value(shown: &Shown, moment: DeviceMoment, value: u128) -> bool
    requires { value ≤ 2 ^ 100 }
    ensures { (s : Scenario) (hs : List Happening) (network : NetworkValue) (device : DeviceIdValue) (t : ℕ)
        → StandsAt s hs network device t moment shown.now
        → IsTrue result ↔ Reaches s hs device (pos value) t }
{
    reaches(shown, moment.readings, value as i128)
}

/// What the local clock shows when a frame of this offset is dispatched in the cycle.
fn dispatch_value(network: &Network, offset: u64, cycle: u32) -> u128
    requires { IsInRange network.now }
    ensures value { result ≡ cycle * amount network.now.cycle + offset }
    ensures high { result ≤ 2 ^ 100 }
{
    u128::from(cycle) * u128::from(network.cycle.amount()) + u128::from(offset)
}
