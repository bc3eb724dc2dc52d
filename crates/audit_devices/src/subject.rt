ghost use Rattle.std.specs.Prelude.{◌≡◌};
ghost use Rattle.audit_devices.specs.Effects.{subject_of};

use net_plan::DeviceId;
use run_law::NoteBody;

/// The device that a record shows something of, if it is of a kind that does.
pub(crate) fn subject_of(body: &NoteBody) -> Option<DeviceId>
    ensures { result ≡ subject_of body.now }
{
    match body {
        NoteBody::Permanent { device, .. }
        | NoteBody::Compressed { device, .. }
        | NoteBody::Corrected { device, .. }
        | NoteBody::State { device, .. } => Some(*device),
        NoteBody::Event { .. }
        | NoteBody::Arrived { .. }
        | NoteBody::Sent { .. }
        | NoteBody::Left { .. }
        | NoteBody::Lost { .. }
        | NoteBody::TtSent { .. }
        | NoteBody::Accepted { .. }
        | NoteBody::Delivered { .. }
        | NoteBody::Dropped { .. }
        | NoteBody::Clock { .. } => None,
    }
}
