//! The judges of time-triggered frames that are dispatched, on ways that are whole and on ways that are cut.

ghost use Rattle.std.specs.Prelude.{◌^◌, ◌↔◌, ◌≡◌, ◌≤◌, IsTrue, List, ℕ};
ghost use Rattle.audit_law.specs.events.{Readings.scenario_under, Remembering.{Remembers, RemembersSome}};
ghost use Rattle.net_plan.specs.{Belonging.HasLink, Ranges.IsInRange, declared.event.Event.Event};
ghost use Rattle.run_law.specs.{control.Losses.IsDispatchedOn, records.Happenings.Happening};
ghost use Rattle.run_law.specs.{scenario.Ways.{is_cut, way_from}, timed.Dispatching.Dispatches};
ghost use Rattle.audit_sweep.specs.records.dispatches.{Exits.AreExits, Judged.LosesDispatch, Sent.AreFoundByNumber};
ghost use Rattle.audit_sweep.specs.records.dispatches.Judged.{DispatchesSome, IsKeptOf, IsKnown, IsTaker};

use crate::records::Kept;
use crate::records::dispatches::{Dispatch, Exits, dispatches, sends_some};
use audit_devices::clocks::DeviceMoment;
use audit_devices::{Shown, Takings};
use audit_law::events::EventHistory;
use device_rules::way_from;
use net_plan::{DeviceId, LinkId, Network};

/// A device at a time.
#[derive(Clone, Copy)]
pub struct At {
    pub device: DeviceId,
    pub time: u64,
}

/// What a record says of a frame that is lost on a link.
#[derive(Clone, Copy)]
pub struct Loss {
    pub link: LinkId,
    pub cause: u64,
    /// What is kept of the record of the number `cause`, if there is one.
    pub kept: Option<Kept>,
}

/// Does the device dispatch this at the time, up to 2^60, on a way that is not cut?
pub fn sends_timed(
    network: &Network,
    events: &EventHistory,
    exits: &Exits,
    takings: &Takings,
    shown: &Shown,
    at: At,
    dispatch: &Dispatch,
) -> bool
    requires range { IsInRange network.now }
    requires some { RemembersSome events.now }
    requires exits { AreExits network.now exits.now }
    requires taker { IsTaker takings.now at }
    requires limit { at.time ≤ 2 ^ 60 }
    ensures { (befallen : List Event) (hs : List Happening)
        → IsKnown network.now befallen hs events.now takings.now shown.now at → HasLink network.now dispatch.now.link
        → IsTrue result ↔ IsDispatchedOn (scenario_under network.now befallen) hs at.device at.time dispatch.now.link
        dispatch.now.cause dispatch.now.vl dispatch.now.cycle }
{
    !is_cut(network, events, at, dispatch.link)
        && leaves(network, events, exits, takings, shown, at, dispatch)
}

/// Does the device dispatch a frame on the link at the time, up to 2^60, by the record of the number `cause`, on a way
/// that is cut?
pub fn loses_dispatch(
    network: &Network,
    events: &EventHistory,
    exits: &Exits,
    takings: &Takings,
    shown: &Shown,
    at: At,
    loss: &Loss,
) -> bool
    requires range { IsInRange network.now }
    requires some { RemembersSome events.now }
    requires exits { AreExits network.now exits.now }
    requires taker { IsTaker takings.now at }
    requires limit { at.time ≤ 2 ^ 60 }
    ensures { (befallen : List Event) (hs : List Happening)
        → IsKnown network.now befallen hs events.now takings.now shown.now at → HasLink network.now loss.now.link
        → AreFoundByNumber hs → IsKeptOf hs loss.now.cause loss.now.kept
        → IsTrue result
        ↔ LosesDispatch (scenario_under network.now befallen) hs at.device at.time loss.now.link loss.now.cause }
{
    is_cut(network, events, at, loss.link)
        && leaves_some(network, events, exits, takings, shown, at, loss)
}

/// Does the device dispatch a frame on the link, by the record of the number `cause`?
fn leaves_some(
    network: &Network,
    events: &EventHistory,
    exits: &Exits,
    takings: &Takings,
    shown: &Shown,
    at: At,
    loss: &Loss,
) -> bool
    requires range { IsInRange network.now }
    requires some { RemembersSome events.now }
    requires exits { AreExits network.now exits.now }
    requires taker { IsTaker takings.now at }
    requires limit { at.time ≤ 2 ^ 60 }
    ensures { (befallen : List Event) (hs : List Happening)
        → IsKnown network.now befallen hs events.now takings.now shown.now at → AreFoundByNumber hs
        → IsKeptOf hs loss.now.cause loss.now.kept
        → IsTrue result
        ↔ DispatchesSome (scenario_under network.now befallen) hs at.device at.time loss.now.link loss.now.cause }
{
    if loss.cause == 0 {
        return sends_some(network, events, exits, at.device, shown, loss.link, at.time);
    }
    match loss.passed() {
        Some(dispatch) => leaves(network, events, exits, takings, shown, at, &dispatch),
        None => false,
    }
}

/// Does the device dispatch this?
fn leaves(
    network: &Network,
    events: &EventHistory,
    exits: &Exits,
    takings: &Takings,
    shown: &Shown,
    at: At,
    dispatch: &Dispatch,
) -> bool
    requires range { IsInRange network.now }
    requires some { RemembersSome events.now }
    requires exits { AreExits network.now exits.now }
    requires taker { IsTaker takings.now at }
    requires limit { at.time ≤ 2 ^ 60 }
    ensures { (befallen : List Event) (hs : List Happening)
        → IsKnown network.now befallen hs events.now takings.now shown.now at
        → IsTrue result ↔ Dispatches (scenario_under network.now befallen) hs at.device at.time dispatch.now.link
        dispatch.now.cause dispatch.now.vl dispatch.now.cycle }
{
    let rows = exits.on(dispatch.link);
    let moment = DeviceMoment::of(events, at.device, at.time);
    let accepted = takings.last_accepted(at.device, dispatch.vl, at.time);
    dispatches(network, rows, at.device, shown, moment, accepted, dispatch)
}

impl Loss {
    ghost use Rattle.audit_sweep.specs.records.dispatches.Passed.{passed_as};

    /// What a switch dispatches on the link of the frame that it took by the record.
    fn passed(&self) -> Option<Dispatch>
        ensures { result ≡ passed_as self.now.link self.now.cause self.now.kept }
    {
        match self.kept {
            Some(Kept::Accepted(_, vl, cycle)) => Some(Dispatch {
                link: self.link,
                cause: self.cause,
                vl,
                cycle,
            }),
            Some(
                Kept::On(_)
                | Kept::Send(_, _)
                | Kept::Arrived(_, _, _)
                | Kept::Permanent(_, _)
                | Kept::Compressed(_, _)
                | Kept::Sent(_)
                | Kept::Corrected(_)
                | Kept::Left(_, _)
                | Kept::TtSent(_, _)
                | Kept::Delivered(_, _, _)
                | Kept::Other,
            )
            | None => None,
        }
    }
}

/// Is the way on which the device sends on the link cut at the time?
pub fn is_cut(network: &Network, events: &EventHistory, at: At, link: LinkId) -> bool
    ensures { (befallen : List Event) → Remembers network.now befallen events.now → HasLink network.now link
        → result
        ≡ is_cut (scenario_under network.now befallen) link (way_from network.now at.device link) at.time }
{
    events.is_cut(link, way_from(network, at.device, link), at.time)
}
