ghost use Rattle.std.specs.Prelude.{◌≡◌};

use crate::plain::bodies::{PlainBody, PlainKind, put_body};
use crate::{Note, NoteBody};
use net_plan::{DeviceId, LinkId, What};
use std::marker::Model;
use tte_units::Units;

/// A record of no event, seen as the record.
#[derive(Drop)]
pub struct PlainNote {
    /// The number of the record, from 1 on.
    pub number: u64,
    /// Its time, in units of 2^-16 ns.
    pub time: Units,
    /// What it says.
    pub body: PlainBody,
}

impl Model for PlainNote {
    ghost use Rattle.run_law.specs.declared.note.Note.{Note};

    ghost Value = { Note };

    ghost view = { λ g. record { number = g.number; time = g.time; body = g.body } };
}

/// No record: one may be put in its place.
pub fn no_record() -> Note
    ensures { result.number ≡ 0 }
{
    Note {
        number: 0,
        time: Units(0),
        body: NoteBody::Event {
            line: 0,
            what: What::End,
        },
    }
}

impl PlainNote {
    /// No record that was given: one may be put in its place.
    pub fn none() -> PlainNote
        ensures { result.number ≡ 0 }
    {
        PlainNote {
            number: 0,
            time: Units(0),
            body: PlainBody {
                kind: PlainKind::Lost {
                    device: DeviceId(0),
                    link: LinkId(0),
                    cause: 0,
                },
            },
        }
    }

    /// What it says.
    pub fn body(&self) -> &PlainBody
        ensures { result.now ≡ self.now.body }
    {
        &self.body
    }

    /// Puts the record in the place of another.
    pub fn note_in(&self, note: &mut Note)
        ensures { note.new ≡ self.now }
    {
        note.number = self.number;
        note.time = self.time;
        put_body(self.body.kind, &mut note.body);
    }

    /// The record.
    pub fn note(&self) -> Note
        ensures { result ≡ self.now }
    {
        let mut note = no_record();
        self.note_in(&mut note);
        note
    }
}
