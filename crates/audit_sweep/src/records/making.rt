//! What is kept of a body.

ghost use Rattle.std.specs.Prelude.{◌≡◌};
ghost use Rattle.audit_sweep.specs.records.Keeping.{kept_of, kept_of_event, sending_of, tells_time};
ghost use Rattle.device_rules.specs.Headings.{heading_of};

use crate::records::{Kept, Sending};
use device_rules::Heading;
use net_plan::{Octets, What};
use pcf_codec::{decode, is_pcf};
use run_law::{Judgement, NoteBody};

/// What is kept of what a record says.
pub(crate) fn kept_of(body: &NoteBody) -> Kept
    ensures { result ≡ kept_of body.now }
{
    match body {
        NoteBody::Event { what, .. } => kept_of_event(what),
        NoteBody::Arrived {
            device,
            link,
            clock,
            ..
        } => Kept::Arrived(*device, *link, *clock),
        NoteBody::Permanent {
            device,
            verdict,
            ..
        } => Kept::Permanent(*device, tells_time(*verdict)),
        NoteBody::Compressed {
            device,
            verdict,
            ..
        } => Kept::Compressed(*device, tells_time(*verdict)),
        NoteBody::Sent { device, .. } => Kept::Sent(*device),
        NoteBody::Corrected { device, .. } => Kept::Corrected(*device),
        NoteBody::Left { device, link, .. } => Kept::Left(*device, *link),
        NoteBody::TtSent { device, link, .. } => Kept::TtSent(*device, *link),
        NoteBody::Accepted {
            device,
            vl,
            cycle,
            ..
        } => Kept::Accepted(*device, *vl, *cycle),
        NoteBody::Delivered {
            device,
            link,
            vl,
            ..
        } => Kept::Delivered(*device, *link, *vl),
        NoteBody::State { .. }
        | NoteBody::Lost { .. }
        | NoteBody::Dropped { .. }
        | NoteBody::Clock { .. } => Kept::Other,
    }
}

/// What is kept of an event.
fn kept_of_event(what: &What) -> Kept
    ensures { result ≡ kept_of_event what.now }
{
    match what {
        What::On(device) => Kept::On(*device),
        What::Send(link, octets) => Kept::Send(*link, sending_of(octets)),
        What::Rate(_, _)
        | What::Wire(_, _, _)
        | What::Hold(_, _, _)
        | What::Cut(_, _)
        | What::Heal(_, _)
        | What::Break(_)
        | What::End => Kept::Other,
    }
}

/// What the octets of a `send` event are.
fn sending_of(octets: &Octets) -> Sending
    ensures { result ≡ sending_of octets.now }
{
    let octets = octets.as_slice();
    if !is_pcf(octets) {
        return Sending::Timed;
    }
    match decode(octets) {
        Ok(_) => Sending::Control,
        Err(refusal) => Sending::Refused(refusal),
    }
}

/// Does the verdict tell the device the time?
fn tells_time(verdict: Judgement) -> bool
    ensures { result ≡ tells_time verdict }
{
    match verdict {
        Judgement::Integrates => true,
        Judgement::Opened
        | Judgement::Joined
        | Judgement::Repeat
        | Judgement::Within
        | Judgement::Outside
        | Judgement::Ignored => false,
    }
}

/// The heading of the octets of a `send` event.
pub(crate) fn heading_of(octets: &Octets) -> Heading
    ensures { result ≡ heading_of octets.now }
{
    Heading::of(octets.as_slice())
}
