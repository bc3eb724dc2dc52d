//! What is lost of the octets of `send` events, on ways that are cut.

ghost use Rattle.std.specs.Prelude.{◌↔◌, ◌≡◌, IsTrue, List, Some, ℕ};
ghost use Rattle.audit_law.specs.events.{Readings.scenario_under, Remembering.Remembers};
ghost use Rattle.audit_sweep.specs.records.{Keeping.record_of, wires.Departings.{IsLossBy, IsLostAt}};
ghost use Rattle.net_plan.specs.declared.event.Event.{Event as EventValue};
ghost use Rattle.run_law.specs.{control.Losses.IsSendLost, records.Happenings.{Happening, numbered}};

use crate::records::wires::Leaving;
use crate::records::{Kept, KeptRecord};
use audit_law::events::EventHistory;
use net_plan::{DeviceId, LinkId, Network, Way};

/// By which device and link, and when, the octets of the `send` event of the number `cause` are lost, if they are by
/// the time. It is None exactly where they are not.
pub fn loss_due(
    network: &Network,
    history: &EventHistory,
    kept: &KeptRecord,
    until: u64,
) -> Option<Leaving>
    ensures { (befallen : List EventValue) (hs : List Happening) (h : Happening) (cause : ℕ)
        → Remembers network.now befallen history.now → numbered hs cause ≡ Some h → kept.now ≡ record_of h
        → IsLossBy (scenario_under network.now befallen) hs until cause result }
{
    let link = match kept.kept {
        Kept::Send(link, _) => link,
        Kept::On(_)
        | Kept::Arrived(_, _, _)
        | Kept::Permanent(_, _)
        | Kept::Compressed(_, _)
        | Kept::Sent(_)
        | Kept::Corrected(_)
        | Kept::Left(_, _)
        | Kept::TtSent(_, _)
        | Kept::Accepted(_, _, _)
        | Kept::Delivered(_, _, _)
        | Kept::Other => return None,
    };
    let device = match network.link.as_slice().get(link.0 as usize) {
        Some(found) => found.child,
        None => return None,
    };
    let time = kept.time;
    if until < time {
        return None;
    }
    if !history.is_cut(link, Way::Up, time) {
        return None;
    }
    Some(Leaving { device, link, time })
}

/// Are the octets of the `send` event of the number `cause` lost so, at this time?
pub fn is_send_lost(
    network: &Network,
    history: &EventHistory,
    kept: &KeptRecord,
    device: DeviceId,
    link: LinkId,
    time: u64,
) -> bool
    ensures { (befallen : List EventValue) (hs : List Happening) (h : Happening) (cause : ℕ)
        → Remembers network.now befallen history.now → numbered hs cause ≡ Some h → kept.now ≡ record_of h
        → IsTrue result ↔ IsSendLost (scenario_under network.now befallen) hs device time link cause }
{
    match loss_due(network, history, kept, time) {
        Some(lost) => is_lost_at(&lost, device, link, time),
        None => false,
    }
}

/// Are they lost by this device, on this link and at this time?
fn is_lost_at(lost: &Leaving, device: DeviceId, link: LinkId, time: u64) -> bool
    ensures { IsTrue result ↔ IsLostAt lost.now device link time }
{
    lost.device.0 == device.0 && lost.link.0 == link.0 && lost.time == time
}
