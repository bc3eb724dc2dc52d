ghost use Rattle.std.specs.Prelude.{◌≡◌};
ghost use Rattle.run_law.specs.plain.Bodies.{said_body};

use crate::NoteBody;
use crate::plain::bodies::PlainKind;
use net_plan::What;

/// What a record says: of an event, or of none.
#[derive(Clone, Copy)]
pub enum EventOrPlain<'b> {
    /// An event befalls the network.
    Event {
        /// The line of the trace that has it, from 1.
        line: u64,
        what: &'b What,
    },
    /// Anything else.
    Plain(PlainKind),
}

impl<'b> EventOrPlain<'b> {
    /// What this says.
    pub fn of(body: &'b NoteBody) -> EventOrPlain<'b>
        ensures { said_body result ≡ body.now }
    {
        let kind = match *body {
            NoteBody::Event { line, ref what } => return EventOrPlain::Event { line, what },
            NoteBody::Arrived {
                device,
                link,
                cause,
                clock,
            } => PlainKind::Arrived {
                device,
                link,
                cause,
                clock,
            },
            NoteBody::Permanent {
                device,
                link,
                cause,
                point,
                verdict,
            } => PlainKind::Permanent {
                device,
                link,
                cause,
                point,
                verdict,
            },
            NoteBody::Compressed {
                device,
                opened,
                at,
                cycle,
                members,
                verdict,
            } => PlainKind::Compressed {
                device,
                opened,
                at,
                cycle,
                members,
                verdict,
            },
            NoteBody::Sent { device, cycle } => PlainKind::Sent { device, cycle },
            NoteBody::Corrected {
                device,
                cycle,
                by,
                adjustment,
            } => PlainKind::Corrected {
                device,
                cycle,
                by,
                adjustment,
            },
            NoteBody::State {
                device,
                state,
                cause,
                why,
            } => PlainKind::State {
                device,
                state,
                cause,
                why,
            },
            NoteBody::Left {
                device,
                link,
                cause,
                clock,
            } => PlainKind::Left {
                device,
                link,
                cause,
                clock,
            },
            NoteBody::Lost {
                device,
                link,
                cause,
            } => PlainKind::Lost {
                device,
                link,
                cause,
            },
            NoteBody::TtSent {
                device,
                link,
                cause,
                vl,
                cycle,
            } => PlainKind::TtSent {
                device,
                link,
                cause,
                vl,
                cycle,
            },
            NoteBody::Accepted {
                device,
                link,
                cause,
                vl,
                cycle,
            } => PlainKind::Accepted {
                device,
                link,
                cause,
                vl,
                cycle,
            },
            NoteBody::Delivered {
                device,
                link,
                cause,
                vl,
                cycle,
            } => PlainKind::Delivered {
                device,
                link,
                cause,
                vl,
                cycle,
            },
            NoteBody::Dropped {
                device,
                link,
                cause,
                reason,
            } => PlainKind::Dropped {
                device,
                link,
                cause,
                reason,
            },
            NoteBody::Clock {
                device,
                reading,
                adjustment,
                state,
            } => PlainKind::Clock {
                device,
                reading,
                adjustment,
                state,
            },
        };
        EventOrPlain::Plain(kind)
    }
}
