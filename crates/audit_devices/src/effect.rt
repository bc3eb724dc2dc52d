ghost use Rattle.std.specs.Prelude.{◌↔◌, ◌≡◌, IsTrue};
ghost use Rattle.audit_devices.specs.Effects.{effect_by, heard_on, judged_as};
ghost use Rattle.audit_devices.specs.declared.effect.Effect.TheVariants.{Nothing};
ghost use Rattle.run_law.specs.scenario.Devices.{channel_of, channel_of_link};

use net_plan::{DeviceId, LinkId, Network};
use run_law::{Judgement, NoteBody};
use sync_state::State;
use sync_state::membership::HeardFrame;
use tte_units::Units;
use tte_units::frames::{Channel, Members};

/// What the frame of a record says: its cycle and its members, or 0 and none where the record has no frame.
#[derive(Clone, Copy)]
pub struct Carried {
    pub cycle: u32,
    pub members: Members,
}

/// What a record shows of a device.
#[derive(Clone, Copy)]
pub(crate) enum Effect {
    /// Nothing that is kept.
    Nothing,
    /// A frame of the cycle tells it the time: at the point its clock is to show what is expected of the frame of its
    /// own cycle, which is the same but for a record whose frame is another's.
    Joins {
        cycle: u32,
        own: u32,
        point: Units,
    },
    /// It hears a frame, within its time or outside it.
    Hears {
        channel: Channel,
        frame: HeardFrame,
        within: bool,
    },
    /// Its clock is corrected at the correction point of the cycle.
    Corrects {
        cycle: u32,
        adjustment: Units,
    },
    /// Its state changes.
    Turns {
        state: State,
    },
}

/// What a record of this body, whose frame says this, shows of the device.
pub(crate) fn effect_of(
    network: &Network,
    device: DeviceId,
    carried: Carried,
    body: &NoteBody,
) -> Effect
    ensures { result ≡ effect_by network.now device carried body.now }
{
    let (other, effect) = match body {
        NoteBody::Permanent {
            device: other,
            link,
            point,
            verdict,
            ..
        } => {
            (
                *other,
                judged(
                    channel_of_link(network, *link),
                    carried,
                    carried.cycle,
                    *point,
                    *verdict,
                ),
            )
        }
        NoteBody::Compressed {
            device: other,
            at,
            cycle,
            verdict,
            ..
        } => {
            (
                *other,
                judged(channel_of(network, device), carried, *cycle, *at, *verdict),
            )
        }
        NoteBody::Corrected {
            device: other,
            cycle,
            adjustment,
            ..
        } => {
            (
                *other,
                Effect::Corrects {
                    cycle: *cycle,
                    adjustment: *adjustment,
                },
            )
        }
        NoteBody::State {
            device: other,
            state,
            ..
        } => (*other, Effect::Turns { state: *state }),
        NoteBody::Event { .. }
        | NoteBody::Arrived { .. }
        | NoteBody::Sent { .. }
        | NoteBody::Left { .. }
        | NoteBody::Lost { .. }
        | NoteBody::TtSent { .. }
        | NoteBody::Accepted { .. }
        | NoteBody::Delivered { .. }
        | NoteBody::Dropped { .. }
        | NoteBody::Clock { .. } => return Effect::Nothing,
    };
    if device.0 == other.0 {
        effect
    } else {
        Effect::Nothing
    }
}

/// Does a record of this body, whose frame says this, show nothing of the device?
pub(crate) fn shows_nothing(
    network: &Network,
    device: DeviceId,
    carried: Carried,
    body: &NoteBody,
) -> bool
    ensures { IsTrue result ↔ (effect_by network.now device carried body.now ≡ Nothing) }
{
    matches!(effect_of(network, device, carried, body), Effect::Nothing)
}

/// What a judgement of a frame on the channel shows of the device that judged it as one of the cycle `own`.
fn judged(
    channel: Option<Channel>,
    carried: Carried,
    own: u32,
    point: Units,
    verdict: Judgement,
) -> Effect
    ensures { result ≡ judged_as channel carried own point verdict }
{
    match verdict {
        Judgement::Integrates => Effect::Joins {
            cycle: carried.cycle,
            own,
            point,
        },
        Judgement::Within => heard(channel, carried, point, true),
        Judgement::Outside => heard(channel, carried, point, false),
        Judgement::Opened | Judgement::Joined | Judgement::Repeat | Judgement::Ignored => {
            Effect::Nothing
        }
    }
}

/// The frame is heard where it came on a channel.
fn heard(channel: Option<Channel>, carried: Carried, point: Units, within: bool) -> Effect
    ensures { result ≡ heard_on channel carried point within }
{
    match channel {
        Some(channel) => Effect::Hears {
            channel,
            frame: HeardFrame {
                cycle: carried.cycle,
                members: carried.members,
                point,
            },
            within,
        },
        None => Effect::Nothing,
    }
}

/// The channel of a link, which is that of its parent.
pub fn channel_of_link(network: &Network, link: LinkId) -> Option<Channel>
    ensures { result ≡ channel_of_link network.now link }
{
    let found = network.link.as_slice().get(link.0 as usize)?;
    channel_of(network, found.parent)
}

/// The channel of a switch.
pub fn channel_of(network: &Network, device: DeviceId) -> Option<Channel>
    ensures { result ≡ channel_of network.now device }
{
    network.device.as_slice().get(device.0 as usize)?.channel
}
