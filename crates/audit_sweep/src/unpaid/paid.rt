ghost use Rattle.std.specs.Prelude.{◌≡◌};
ghost use Rattle.audit_sweep.specs.unpaid.Payments.{both, is_old, nothing, paid_by};

use run_law::{NoteBody, Reason};

/// Of which kinds the debts are that are paid, of those that a record brings.
#[derive(Clone, Copy, PartialEq, Eq)]
pub struct Paid {
    pub arrival: bool,
    pub permanence: bool,
    pub change: bool,
    pub loss: bool,
}

impl Paid {
    /// Nothing is.
    pub fn nothing() -> Paid
        ensures { result ≡ nothing }
    {
        Paid {
            arrival: false,
            permanence: false,
            change: false,
            loss: false,
        }
    }

    /// What is paid by either.
    pub(crate) fn and(self, other: Paid) -> Paid
        ensures { result ≡ both self other }
    {
        Paid {
            arrival: self.arrival || other.arrival,
            permanence: self.permanence || other.permanence,
            change: self.change || other.change,
            loss: self.loss || other.loss,
        }
    }

    /// What a record pays that says this, of what its cause brings.
    pub(crate) fn by(body: &NoteBody) -> Paid
        ensures { result ≡ paid_by body.now }
    {
        let nothing = Paid::nothing();
        match body {
            NoteBody::Arrived { .. } | NoteBody::Accepted { .. } | NoteBody::Delivered { .. } => {
                Paid {
                    arrival: true,
                    ..nothing
                }
            }
            NoteBody::Dropped { reason, .. } => Paid {
                arrival: true,
                permanence: !is_old(*reason),
                ..nothing
            },
            NoteBody::Permanent { .. } => Paid {
                permanence: true,
                ..nothing
            },
            NoteBody::State { .. } => Paid {
                change: true,
                ..nothing
            },
            NoteBody::Lost { .. } => Paid {
                loss: true,
                ..nothing
            },
            NoteBody::Event { .. }
            | NoteBody::Compressed { .. }
            | NoteBody::Sent { .. }
            | NoteBody::Corrected { .. }
            | NoteBody::Left { .. }
            | NoteBody::TtSent { .. }
            | NoteBody::Clock { .. } => nothing,
        }
    }
}

/// Is a drop for this reason one for the frame's age?
fn is_old(reason: Reason) -> bool
    ensures { result ≡ is_old reason }
{
    matches!(reason, Reason::Old)
}
