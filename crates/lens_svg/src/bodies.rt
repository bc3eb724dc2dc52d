//! What a record says of where it is drawn, and how.
ghost use Rattle.std.specs.Prelude.{◌≡◌};
ghost use Rattle.lens_svg.specs.Bodies.{child_of, look_of, own_hue, scene_of, seat_of, struck_by, struck_look};

use crate::mark::ground_of;
use crate::{Ground, Hue, Look};
use net_plan::{DeviceId, LinkId, Network, What};
use run_law::NoteBody;

/// The child of the link.
fn child_of(network: &Network, link: LinkId) -> DeviceId
    ensures { result ≡ child_of network.now link }
{
    match network.link.as_slice().get(link.0 as usize) {
        Some(found) => found.child,
        None => DeviceId(0),
    }
}

/// The device that the event befalls, or the child of its link.
fn struck_by(network: &Network, what: &What) -> DeviceId
    ensures { result ≡ struck_by network.now what.now }
{
    match what {
        What::Rate(device, _) | What::On(device) | What::Break(device) => *device,
        What::Wire(link, _, _)
        | What::Hold(link, _, _)
        | What::Cut(link, _)
        | What::Heal(link, _)
        | What::Send(link, _) => child_of(network, *link),
        What::End => DeviceId(0),
    }
}

/// What the event draws besides its mark.
fn struck_look(what: &What) -> Look
    ensures { result ≡ struck_look what.now }
{
    match what {
        What::Break(_) => Look::Turned(Ground::Broken),
        What::Rate(_, _)
        | What::Wire(_, _, _)
        | What::Hold(_, _, _)
        | What::Cut(_, _)
        | What::Heal(_, _)
        | What::On(_)
        | What::Send(_, _)
        | What::End => Look::Plain,
    }
}

/// The device at which it happens.
pub fn scene_of(network: &Network, body: &NoteBody) -> DeviceId
    ensures { result ≡ scene_of network.now body.now }
{
    match body {
        NoteBody::Event { line: _, what } => struck_by(network, what),
        NoteBody::Arrived { device, .. }
        | NoteBody::Permanent { device, .. }
        | NoteBody::Compressed { device, .. }
        | NoteBody::Sent { device, .. }
        | NoteBody::Corrected { device, .. }
        | NoteBody::State { device, .. }
        | NoteBody::Left { device, .. }
        | NoteBody::Lost { device, .. }
        | NoteBody::TtSent { device, .. }
        | NoteBody::Accepted { device, .. }
        | NoteBody::Delivered { device, .. }
        | NoteBody::Dropped { device, .. }
        | NoteBody::Clock { device, .. } => *device,
    }
}

/// The row in which its mark stands: 0 is that of the events, and then there is one for each device.
pub fn seat_of(network: &Network, body: &NoteBody) -> u64
    ensures { result ≡ seat_of network.now body.now }
{
    match body {
        NoteBody::Event { .. } => 0,
        NoteBody::Arrived { .. }
        | NoteBody::Permanent { .. }
        | NoteBody::Compressed { .. }
        | NoteBody::Sent { .. }
        | NoteBody::Corrected { .. }
        | NoteBody::State { .. }
        | NoteBody::Left { .. }
        | NoteBody::Lost { .. }
        | NoteBody::TtSent { .. }
        | NoteBody::Accepted { .. }
        | NoteBody::Delivered { .. }
        | NoteBody::Dropped { .. }
        | NoteBody::Clock { .. } => u64::from(scene_of(network, body).0) + 1,
    }
}

/// Its hue where it comes from no record.
pub(crate) fn own_hue(body: &NoteBody) -> Hue
    ensures { result ≡ own_hue body.now }
{
    match body {
        NoteBody::Event { .. } => Hue::Forged,
        NoteBody::Compressed { .. } => Hue::Summary,
        NoteBody::TtSent { .. } | NoteBody::Accepted { .. } | NoteBody::Delivered { .. } => {
            Hue::Stream
        }
        NoteBody::Arrived { .. }
        | NoteBody::Permanent { .. }
        | NoteBody::Sent { .. }
        | NoteBody::Corrected { .. }
        | NoteBody::State { .. }
        | NoteBody::Left { .. }
        | NoteBody::Lost { .. }
        | NoteBody::Dropped { .. }
        | NoteBody::Clock { .. } => Hue::Control,
    }
}

/// What it draws besides its mark.
pub(crate) fn look_of(body: &NoteBody) -> Look
    ensures { result ≡ look_of body.now }
{
    match body {
        NoteBody::Event { line: _, what } => struck_look(what),
        NoteBody::Permanent { .. } => Look::Waited,
        NoteBody::Dropped { .. } => Look::Gone,
        NoteBody::State { state, .. } => Look::Turned(ground_of(*state)),
        NoteBody::Accepted { link, vl, .. } | NoteBody::Delivered { link, vl, .. } => {
            Look::Taken(*link, *vl)
        }
        NoteBody::Arrived { .. }
        | NoteBody::Compressed { .. }
        | NoteBody::Sent { .. }
        | NoteBody::Corrected { .. }
        | NoteBody::Left { .. }
        | NoteBody::Lost { .. }
        | NoteBody::TtSent { .. }
        | NoteBody::Clock { .. } => Look::Plain,
    }
}
