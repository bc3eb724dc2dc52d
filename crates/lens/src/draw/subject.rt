//! The thing that a picture is of, by its name.
ghost use Rattle.std.specs.Prelude.{◌≡◌, ◌+◌, IfNone, IfSome};
ghost use Rattle.lens.specs.draw.{Keeping.{is_sending, own_flag}, Naming.{IsUnknown, Names}};
ghost use Rattle.net_plan.specs.Ranges.{IsInRange};

use lens_svg::{flag_at, seat_of};
use net_plan::{DeviceId, Network, VlId};
use run_law::{NoteBody, cause_of};

/// What a picture is of.
#[derive(Clone, Copy)]
pub enum Subject {
    /// The frames of a virtual link.
    Frames(VlId),
    /// What stands in the lane of a device.
    Lane(DeviceId),
}

/// The virtual link of this name, or else the device.
pub(crate) fn subject_named(network: &Network, name: &str) -> Option<Subject>
    requires { IsInRange network.now }
    ensures some { IfSome result (Names network.now name.now) }
    ensures none { IfNone result (IsUnknown network.now name.now) }
{
    match network.vl_named(name) {
        Some(vl) => Some(Subject::Frames(vl)),
        None => {
            let device = network.device_named(name)?;
            Some(Subject::Lane(device))
        }
    }
}

/// Is a frame of the virtual link sent by a record of this body?
fn is_sending(vl: VlId, body: &NoteBody) -> bool
    ensures { result ≡ is_sending vl body.now }
{
    match body {
        NoteBody::TtSent { vl: of, .. } => of.0 == vl.0,
        NoteBody::Event { .. }
        | NoteBody::Arrived { .. }
        | NoteBody::Permanent { .. }
        | NoteBody::Compressed { .. }
        | NoteBody::Sent { .. }
        | NoteBody::Corrected { .. }
        | NoteBody::State { .. }
        | NoteBody::Left { .. }
        | NoteBody::Lost { .. }
        | NoteBody::Accepted { .. }
        | NoteBody::Delivered { .. }
        | NoteBody::Dropped { .. }
        | NoteBody::Clock { .. } => false,
    }
}

/// Is a record of this body of the thing, by the flags of those before it?
pub(crate) fn own_flag(network: &Network, subject: Subject, flags: &[bool], body: &NoteBody) -> bool
    ensures { result ≡ own_flag network.now subject flags.now body.now }
{
    match subject {
        Subject::Frames(vl) => is_sending(vl, body) || flag_at(flags, cause_of(body)),
        Subject::Lane(device) => seat_of(network, body) == u64::from(device.0) + 1,
    }
}
