//! What records put on wires.

ghost use Rattle.std.specs.Prelude.{◌≡◌, List, option_map};
ghost use Rattle.audit_law.specs.events.{Readings.scenario_under, Remembering.Remembers};
ghost use Rattle.audit_sweep.specs.records.wires.Signals.{control_on_wire, put_by, put_on, sent_on_wire, stops};
ghost use Rattle.{net_plan.specs.Belonging.HasLink, run_law.specs.scenario.Ways.way_from};
ghost use Rattle.net_plan.specs.declared.{event.Event.{Event as EventValue}, network.Network.{Network as NetworkValue}};

use crate::records::{Kept, KeptRecord, Sending};
use audit_law::events::EventHistory;
use device_rules::{Heading, way_from};
use net_plan::{LinkId, Network, Way};
use pcf_codec::PcfRefusal;
use tte_units::frames::Pcf;

/// What is on a wire.
#[derive(Clone, Copy)]
pub enum OnWire {
    /// A protocol control frame, as its octets decode.
    Control(Result<Pcf, PcfRefusal>),
    /// Any other frame, of which the heading is kept.
    Timed(Heading),
}

/// A frame that is put on a way of a link.
#[derive(Clone, Copy)]
pub(crate) struct Put {
    pub(crate) link: LinkId,
    pub(crate) way: Way,
    pub(crate) what: OnWire,
}

/// What the record puts on a way that is not cut.
pub(crate) fn put_by(network: &Network, kept: &KeptRecord) -> Option<Put>
    ensures { result ≡ put_by network.now kept.now kept.now.kept }
{
    match kept.kept {
        Kept::Left(device, link) => put_on(
            link,
            way_from(network, device, link),
            control_on_wire(kept.frame),
        ),
        Kept::TtSent(device, link) => put_on(
            link,
            way_from(network, device, link),
            Some(OnWire::Timed(kept.heading)),
        ),
        Kept::Send(link, sending) => put_on(link, Way::Up, sent_on_wire(kept, sending)),
        Kept::On(_)
        | Kept::Arrived(_, _, _)
        | Kept::Permanent(_, _)
        | Kept::Compressed(_, _)
        | Kept::Sent(_)
        | Kept::Corrected(_)
        | Kept::Accepted(_, _, _)
        | Kept::Delivered(_, _, _)
        | Kept::Other => None,
    }
}

/// The frame is put on the way, if there is one.
fn put_on(link: LinkId, way: Way, what: Option<OnWire>) -> Option<Put>
    ensures { result ≡ option_map (put_on link way) what }
{
    match what {
        Some(what) => Some(Put { link, way, what }),
        None => None,
    }
}

/// The control frame on a wire, if there is one.
fn control_on_wire(frame: Option<Pcf>) -> Option<OnWire>
    ensures { result ≡ control_on_wire frame }
{
    match frame {
        Some(frame) => Some(OnWire::Control(Ok(frame))),
        None => None,
    }
}

/// What the octets of a `send` event are on a wire.
fn sent_on_wire(kept: &KeptRecord, sending: Sending) -> Option<OnWire>
    ensures { result ≡ sent_on_wire kept.now sending }
{
    match sending {
        Sending::Control => control_on_wire(kept.frame),
        Sending::Refused(refusal) => Some(OnWire::Control(Err(refusal))),
        Sending::Timed => Some(OnWire::Timed(kept.heading)),
    }
}

/// Does a cut of the link's way up stop what the record puts on it?
pub(crate) fn is_stopped(history: &EventHistory, kept: &KeptRecord, link: LinkId) -> bool
    ensures { (network : NetworkValue) (befallen : List EventValue) → Remembers network befallen history.now
        → HasLink network link → result ≡ stops (scenario_under network befallen) kept.now.time link kept.now.kept }
{
    match kept.kept {
        Kept::Send(_, _) => history.is_cut(link, Way::Up, kept.time),
        Kept::On(_)
        | Kept::Arrived(_, _, _)
        | Kept::Permanent(_, _)
        | Kept::Compressed(_, _)
        | Kept::Sent(_)
        | Kept::Corrected(_)
        | Kept::Left(_, _)
        | Kept::TtSent(_, _)
        | Kept::Accepted(_, _, _)
        | Kept::Delivered(_, _, _)
        | Kept::Other => false,
    }
}
