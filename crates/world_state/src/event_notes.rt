ghost use Rattle.std.specs.Prelude.{◌≡◌};

use crate::applying::copy_of;
use net_plan::Event;
use run_law::{Note, NoteBody};
use std::marker::Model;

/// The record of an event that befell a network, seen as the record. It is small, as it has no octets of its own.
#[derive(Drop)]
pub struct EventNote<'e> {
    /// The number of the record, from 1 on.
    pub number: u64,
    /// The line of the event: events are counted from 1.
    pub line: u64,
    /// The event.
    pub event: &'e Event,
}

impl<'e> Model for EventNote<'e> {
    ghost use Rattle.run_law.specs.declared.note.{Note.Note, NoteBody.TheVariants.Event as Befalls};

    ghost Value = { Note };

    ghost view = { λ e. record { number = e.number; time = e.event.now.time; body = Befalls e.line e.event.now.what } };
}

impl<'e> EventNote<'e> {
    /// The record.
    pub fn note(&self) -> Note
        ensures { result ≡ self.now }
    {
        let event = self.event;
        Note {
            number: self.number,
            time: event.time,
            body: NoteBody::Event {
                line: self.line,
                what: copy_of(&event.what),
            },
        }
    }
}
