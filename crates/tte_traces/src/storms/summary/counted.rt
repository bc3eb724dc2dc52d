ghost use Rattle.std.specs.Prelude.{◌≡◌};
ghost use Rattle.tte_traces.specs.storms.summary.Counting.{counted_as};

use run_law::{NoteBody, Reason};

/// The line of a summary that counts a record, beside that of all records.
#[derive(Clone, Copy)]
pub enum Counted {
    Compressed,
    Corrected,
    Lost,
    TtSent,
    Accepted,
    Delivered,
    /// That of the drops for this reason.
    Dropped(Reason),
    /// No line counts records of this kind alone.
    Unlisted,
}

/// Which line counts the record.
pub(crate) fn counted_as(body: &NoteBody) -> Counted
    ensures { result ≡ counted_as body.now }
{
    match body {
        NoteBody::Compressed { .. } => Counted::Compressed,
        NoteBody::Corrected { .. } => Counted::Corrected,
        NoteBody::Lost { .. } => Counted::Lost,
        NoteBody::TtSent { .. } => Counted::TtSent,
        NoteBody::Accepted { .. } => Counted::Accepted,
        NoteBody::Delivered { .. } => Counted::Delivered,
        NoteBody::Dropped { reason, .. } => Counted::Dropped(*reason),
        NoteBody::Event { .. }
        | NoteBody::Arrived { .. }
        | NoteBody::Permanent { .. }
        | NoteBody::Sent { .. }
        | NoteBody::State { .. }
        | NoteBody::Left { .. }
        | NoteBody::Clock { .. } => Counted::Unlisted,
    }
}
