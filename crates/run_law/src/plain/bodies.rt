ghost use Rattle.std.specs.Prelude.{◌≡◌};
ghost use Rattle.run_law.specs.plain.Bodies.{body_of};

use crate::{Judgement, NoteBody, Reason, Why};
use net_plan::{DeviceId, LinkId, VlId};
use std::marker::Model;
use sync_state::State;
use tte_units::Units;
use tte_units::frames::Members;

/// What a record says of no event. It is small, so that it is moved at no cost. The fields are those of `NoteBody`.
#[derive(Clone, Copy)]
pub enum PlainKind {
    /// A control frame arrives and is taken.
    Arrived {
        device: DeviceId,
        link: LinkId,
        cause: u64,
        clock: u64,
    },
    /// A control frame is permanent.
    Permanent {
        device: DeviceId,
        link: LinkId,
        cause: u64,
        point: Units,
        verdict: Judgement,
    },
    /// A compression master sends the frame of a collection.
    Compressed {
        device: DeviceId,
        opened: Units,
        at: Units,
        cycle: u32,
        members: Members,
        verdict: Judgement,
    },
    /// A master sends the control frame of a cycle.
    Sent {
        device: DeviceId,
        cycle: u32,
    },
    /// A device corrects its clock.
    Corrected {
        device: DeviceId,
        cycle: u32,
        by: Units,
        adjustment: Units,
    },
    /// A device changes its state.
    State {
        device: DeviceId,
        state: State,
        cause: u64,
        why: Why,
    },
    /// A control frame leaves a device.
    Left {
        device: DeviceId,
        link: LinkId,
        cause: u64,
        clock: u64,
    },
    /// A frame meets a cut way.
    Lost {
        device: DeviceId,
        link: LinkId,
        cause: u64,
    },
    /// A frame of the schedule is dispatched.
    TtSent {
        device: DeviceId,
        link: LinkId,
        cause: u64,
        vl: VlId,
        cycle: u32,
    },
    /// A switch takes a frame of the schedule.
    Accepted {
        device: DeviceId,
        link: LinkId,
        cause: u64,
        vl: VlId,
        cycle: u32,
    },
    /// An end system takes a frame of the schedule.
    Delivered {
        device: DeviceId,
        link: LinkId,
        cause: u64,
        vl: VlId,
        cycle: u32,
    },
    /// A frame is dropped.
    Dropped {
        device: DeviceId,
        link: LinkId,
        cause: u64,
        reason: Reason,
    },
    /// A device's clock at the end of the run.
    Clock {
        device: DeviceId,
        reading: Units,
        adjustment: Units,
        state: State,
    },
}

/// What a record says of no event, seen as the body of the record.
#[derive(Drop)]
pub struct PlainBody {
    /// The same, by its kind.
    pub kind: PlainKind,
}

impl Model for PlainBody {
    ghost use Rattle.run_law.specs.declared.note.NoteBody.{NoteBody};

    ghost Value = { NoteBody };

    ghost use Rattle.run_law.specs.plain.Bodies.{body_of};

    ghost view = { λ b. body_of b.kind };
}

/// Puts the body of the record in the place of another. A body has room for an event, so that none is moved.
pub(crate) fn put_body(kind: PlainKind, body: &mut NoteBody)
    ensures { body.new ≡ body_of kind }
{
    match kind {
        PlainKind::Arrived {
            device,
            link,
            cause,
            clock,
        } => *body = NoteBody::Arrived {
            device,
            link,
            cause,
            clock,
        },
        PlainKind::Permanent {
            device,
            link,
            cause,
            point,
            verdict,
        } => *body = NoteBody::Permanent {
            device,
            link,
            cause,
            point,
            verdict,
        },
        PlainKind::Compressed {
            device,
            opened,
            at,
            cycle,
            members,
            verdict,
        } => *body = NoteBody::Compressed {
            device,
            opened,
            at,
            cycle,
            members,
            verdict,
        },
        PlainKind::Sent { device, cycle } => *body = NoteBody::Sent { device, cycle },
        PlainKind::Corrected {
            device,
            cycle,
            by,
            adjustment,
        } => *body = NoteBody::Corrected {
            device,
            cycle,
            by,
            adjustment,
        },
        PlainKind::State {
            device,
            state,
            cause,
            why,
        } => *body = NoteBody::State {
            device,
            state,
            cause,
            why,
        },
        PlainKind::Left {
            device,
            link,
            cause,
            clock,
        } => *body = NoteBody::Left {
            device,
            link,
            cause,
            clock,
        },
        PlainKind::Lost {
            device,
            link,
            cause,
        } => *body = NoteBody::Lost {
            device,
            link,
            cause,
        },
        PlainKind::TtSent {
            device,
            link,
            cause,
            vl,
            cycle,
        } => *body = NoteBody::TtSent {
            device,
            link,
            cause,
            vl,
            cycle,
        },
        PlainKind::Accepted {
            device,
            link,
            cause,
            vl,
            cycle,
        } => *body = NoteBody::Accepted {
            device,
            link,
            cause,
            vl,
            cycle,
        },
        PlainKind::Delivered {
            device,
            link,
            cause,
            vl,
            cycle,
        } => *body = NoteBody::Delivered {
            device,
            link,
            cause,
            vl,
            cycle,
        },
        PlainKind::Dropped {
            device,
            link,
            cause,
            reason,
        } => *body = NoteBody::Dropped {
            device,
            link,
            cause,
            reason,
        },
        PlainKind::Clock {
            device,
            reading,
            adjustment,
            state,
        } => *body = NoteBody::Clock {
            device,
            reading,
            adjustment,
            state,
        },
    }
}
