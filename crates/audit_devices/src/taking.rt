ghost use Rattle.std.specs.Prelude.{◌&&◌, ◌==◌, ◌||◌, ◌≡◌, ◌∷◌, [], nat_lt};
ghost use Rattle.audit_devices.specs.Taking.{is_taking_before, taken_by};

use net_plan::{DeviceId, LinkId, VlId};
use run_law::NoteBody;

/// A time-triggered frame that a device took, as a record says it.
#[derive(Clone, Copy)]
pub struct Taking {
    /// When and by which link it came, and which record had put it there.
    pub time: u64,
    pub link: LinkId,
    pub cause: u64,
    /// The record's number.
    pub number: u64,
    /// The device's cycle in which it was taken.
    pub cycle: u32,
}

impl Taking {
    /// Whether it came before a frame of this link and cause at the time.
    pub(crate) fn is_before(&self, time: u64, link: LinkId, cause: u64) -> bool
        ensures { result ≡ is_taking_before time link cause self.now }
    {
        let by_cause = precedes(self.cause, cause, false);
        let by_link = precedes(u64::from(self.link.0), u64::from(link.0), by_cause);
        precedes(self.time, time, by_link)
    }
}

/// A frame that was taken, and where.
#[derive(Clone, Copy)]
pub(crate) struct Taken {
    pub(crate) device: DeviceId,
    pub(crate) vl: VlId,
    pub(crate) taking: Taking,
}

/// The frame that a record of this time, number and body says was taken, if it is of a kind that does.
pub(crate) fn taken_by(time: u64, number: u64, body: &NoteBody) -> Option<Taken>
    ensures { result ≡ taken_by time number body.now }
{
    match body {
        NoteBody::Accepted {
            device,
            link,
            cause,
            vl,
            cycle,
        }
        | NoteBody::Delivered {
            device,
            link,
            cause,
            vl,
            cycle,
        } => Some(Taken {
            device: *device,
            vl: *vl,
            taking: Taking {
                time,
                link: *link,
                cause: *cause,
                number,
                cycle: *cycle,
            },
        }),
        NoteBody::Event { .. }
        | NoteBody::Arrived { .. }
        | NoteBody::Permanent { .. }
        | NoteBody::Compressed { .. }
        | NoteBody::Sent { .. }
        | NoteBody::Corrected { .. }
        | NoteBody::State { .. }
        | NoteBody::Left { .. }
        | NoteBody::Lost { .. }
        | NoteBody::TtSent { .. }
        | NoteBody::Dropped { .. }
        | NoteBody::Clock { .. } => None,
    }
}

/// Whether the number is below the other, or is the other where the rest is before the other's.
fn precedes(number: u64, other: u64, rest: bool) -> bool
    ensures { result ≡ (nat_lt number other || (number == other && rest)) }
{
    number < other || (number == other && rest)
}
