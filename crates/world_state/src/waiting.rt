ghost use Rattle.std.specs.Prelude.{◌≡◌, ◌<◌, ◌≤◌, ◌≤ℤ◌, ◌^◌, ◌+◌, pos, length, IfSome, Some};
ghost use Rattle.{net_plan.specs.Ranges.IsInRange, world_state.specs.Giving.{CameBy, IsYoung, awaited_by, giver_of}};
ghost use Rattle.world_state.specs.Frames.{IsOneMore, room_of, waiter_of};
ghost use Rattle.tte_units.specs.Amount.{amount};

use crate::contents::Waits;
use crate::frames::Frames;
use device_rules::waits_for;
use drift_clock::transparent::permanence;
use net_plan::{DeviceId, Network};
use run_law::plain::{PlainBody, PlainKind};
use tte_units::Units;
use tte_units::frames::Pcf;

/// What waits by a record, where its device is broken or not and its clock reads this.
#[inline(always)]
pub(crate) fn awaited(
    network: &Network,
    broken: bool,
    body: &PlainBody,
    frame: Option<Pcf>,
    reading: u64,
    number: u64,
) -> Option<Waits>
    requires range { IsInRange network.now }
    requires by { CameBy (length network.now.link) body.now }
    requires young { IsYoung (amount network.now.dmax) body.now }
    requires low { reading ≤ 2 ^ 60 + 2 ^ 51 }
    ensures is { result ≡ awaited_by network.now broken body.now frame reading number }
    ensures begun { IfSome result (λ w. pos 0 ≤ℤ w.point.0) }
    ensures own { IfSome result (λ w. waiter_of body.now ≡ Some w.device) }
{
    let PlainKind::Arrived {
        device,
        link,
        clock,
        ..
    } = &body.kind
    else {
        return None;
    };
    if broken || !waits_for(network, *device, *link) {
        return None;
    }
    let frame = frame?;
    let point = permanence(Units::from_amount(reading), *clock, network.dmax);
    Some(Waits {
        device: *device,
        link: *link,
        cause: number,
        frame,
        point,
    })
}

/// The device that gives the frame of a record to links, or waits for it.
#[inline(always)]
pub fn giver(body: &PlainBody) -> Option<DeviceId>
    ensures { result ≡ giver_of body.now }
{
    match &body.kind {
        PlainKind::Sent { device, .. }
        | PlainKind::Compressed { device, .. }
        | PlainKind::Arrived { device, .. } => Some(*device),
        _ => None,
    }
}

/// The device at which the frame of a record may wait.
pub fn waiter(body: &PlainBody) -> Option<DeviceId>
    ensures { result ≡ waiter_of body.now }
{
    match &body.kind {
        PlainKind::Arrived { device, .. } => Some(*device),
        _ => None,
    }
}

/// It waits, where there is one.
#[inline(always)]
pub fn wait_for(waiting: &mut Frames, one: Option<Waits>)
    requires room { IfSome one (λ w. 0 < room_of waiting.old w.device.0) }
    requires begun { IfSome one (λ w. pos 0 ≤ℤ w.point.0) }
    ensures { IsOneMore one waiting.old.items waiting.new.items }
{
    if let Some(one) = one {
        waiting.put(one);
    }
}
