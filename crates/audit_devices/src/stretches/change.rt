ghost use Rattle.std.specs.Prelude.{◌≡◌};
ghost use Rattle.audit_devices.specs.stretches.Changes.{change_by, collector_in, emission_change, permanence_change};
ghost use Rattle.audit_devices.specs.stretches.Changes.{state_change};

use net_plan::DeviceId;
use run_law::{Judgement, NoteBody, Why};
use tte_units::Units;

/// What a record does to the collections of its device.
#[derive(Clone, Copy)]
pub(crate) enum CollectionChange {
    /// It ends the stretch of points.
    Ends,
    /// It gives a point.
    Gives(Units),
}

/// The device whose collections a record of this body may change.
pub(crate) fn collector_in(body: &NoteBody) -> Option<DeviceId>
    ensures { result ≡ collector_in body.now }
{
    match body {
        NoteBody::Permanent { device, .. }
        | NoteBody::Compressed { device, .. }
        | NoteBody::State { device, .. } => Some(*device),
        NoteBody::Event { .. }
        | NoteBody::Arrived { .. }
        | NoteBody::Sent { .. }
        | NoteBody::Corrected { .. }
        | NoteBody::Left { .. }
        | NoteBody::Lost { .. }
        | NoteBody::TtSent { .. }
        | NoteBody::Accepted { .. }
        | NoteBody::Delivered { .. }
        | NoteBody::Dropped { .. }
        | NoteBody::Clock { .. } => None,
    }
}

/// What a record of this body does to the collections of its device, if anything.
pub(crate) fn change_by(body: &NoteBody) -> Option<CollectionChange>
    ensures { result ≡ change_by body.now }
{
    match body {
        NoteBody::Permanent { point, verdict, .. } => Some(permanence_change(*point, *verdict)),
        NoteBody::Compressed { verdict, .. } => emission_change(*verdict),
        NoteBody::State { why, .. } => state_change(*why),
        NoteBody::Event { .. }
        | NoteBody::Arrived { .. }
        | NoteBody::Sent { .. }
        | NoteBody::Corrected { .. }
        | NoteBody::Left { .. }
        | NoteBody::Lost { .. }
        | NoteBody::TtSent { .. }
        | NoteBody::Accepted { .. }
        | NoteBody::Delivered { .. }
        | NoteBody::Dropped { .. }
        | NoteBody::Clock { .. } => None,
    }
}

/// A frame that is permanent gives its point, but ends the stretch where it tells the device the time.
fn permanence_change(point: Units, verdict: Judgement) -> CollectionChange
    ensures { result ≡ permanence_change point verdict }
{
    match verdict {
        Judgement::Integrates => CollectionChange::Ends,
        Judgement::Opened
        | Judgement::Joined
        | Judgement::Repeat
        | Judgement::Within
        | Judgement::Outside
        | Judgement::Ignored => CollectionChange::Gives(point),
    }
}

/// A frame that is sent ends the stretch where it tells the device the time.
fn emission_change(verdict: Judgement) -> Option<CollectionChange>
    ensures { result ≡ emission_change verdict }
{
    match verdict {
        Judgement::Integrates => Some(CollectionChange::Ends),
        Judgement::Opened
        | Judgement::Joined
        | Judgement::Repeat
        | Judgement::Within
        | Judgement::Outside
        | Judgement::Ignored => None,
    }
}

/// A change of the state ends the stretch, but being turned on does not.
fn state_change(why: Why) -> Option<CollectionChange>
    ensures { result ≡ state_change why }
{
    match why {
        Why::On => None,
        Why::Frame | Why::Correction | Why::SyncClique | Why::AsyncClique => Some(
            CollectionChange::Ends,
        ),
    }
}
