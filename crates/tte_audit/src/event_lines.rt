//! The line of a record of an event. It is read word by word, each just as it is written, into the place of another.

ghost use Rattle.std.specs.{List.AllPass, Prelude.{◌↔◌, ◌≡◌, ◌≢◌, IfSome, IsTrue, None, ℕ}};
ghost use Rattle.net_plan.specs.{Belonging.IsOfNetwork, declared.event.What.What as WhatValue};
ghost use Rattle.run_law.specs.declared.note.NoteBody.TheVariants as bodies;
ghost use Rattle.trace_text.specs.{EventLine.what_words, Ranges.IsWhatInRange, Steps.words};
ghost use Rattle.tte_units.specs.declared.units.Units.{Units as UnitsValue};
ghost use Rattle.tte_audit.specs.{Named.IsNamed, Report.{IsTextOf, saying}, Spellings.is_no_capital};

use crate::line_words::LineWords;
use net_plan::{Event, Network, What};
use run_law::{Note, NoteBody};
use std::marker::Model;
use trace_text::{Words, what_in};
use tte_units::Units;

/// The record of an event, seen as the record. It is large, so that each is read into the place of another.
#[derive(Drop)]
pub(crate) struct EventRecord {
    /// The number of the record, from 1.
    pub(crate) number: u64,
    /// The line of the trace that has the event, from 1.
    pub(crate) line: u64,
    pub(crate) event: Event,
}

impl Model for EventRecord {
    ghost use Rattle.run_law.specs.declared.note.{Note.Note, NoteBody.TheVariants.Event};

    ghost Value = { Note };

    ghost view = { λ r. record { number = r.number; time = r.event.time; body = Event r.line r.event.what } };
}

impl EventRecord {
    /// A record that was not read: one may be put in its place.
    pub(crate) fn none() -> EventRecord {
        EventRecord {
            number: 0,
            line: 0,
            event: Event {
                time: Units(0),
                what: What::End,
            },
        }
    }

    /// The record.
    pub(crate) fn into_note(self) -> Note
        ensures { result ≡ self }
    {
        Note {
            number: self.number,
            time: self.event.time,
            body: NoteBody::Event {
                line: self.line,
                what: self.event.what,
            },
        }
    }
}

// Has it no capital letter? A frame's octets are read in digits of either case, and written without capitals.
fn has_no_capital(text: &[u8]) -> bool
    ensures { IsTrue result ↔ AllPass is_no_capital text.now }
{
    text.iter().all(|octet| !octet.is_ascii_uppercase())
}

// Reads what befalls the network, where that is written just so, and puts it in the place of another.
fn exact_what(network: &Network, text: &[u8], what: &mut What) -> Option<()>
    requires { IsNamed network.now }
    ensures is { (w : WhatValue) → IsOfNetwork network.now w → IsWhatInRange w
        → words text.now ≡ what_words network.now w → result ≢ None }
    ensures of_network { IfSome result (λ _. IsOfNetwork network.now what.new) }
    ensures range { IfSome result (λ _. IsWhatInRange what.new) }
    ensures text { IfSome result (λ _. words text.now ≡ what_words network.now what.new) }
{
    if !has_no_capital(text) {
        return None;
    }
    let mut words = Words::of(text);
    match what_in(network, &mut words, what) {
        Ok(()) => Some(()),
        Err(_) => None,
    }
}

/// Reads the line of a record of an event, without its LF, and puts the record in the place of another, which is of no
/// use where the text is no such line.
#[inline(never)]
pub(crate) fn event_line(network: &Network, text: &[u8], read: &mut EventRecord) -> Option<()>
    requires { IsNamed network.now }
    ensures is { (number : ℕ) (time : UnitsValue) (line : ℕ) (w : WhatValue)
        → IsTextOf network.now (saying number time (bodies.Event line w)) text.now → result ≢ None }
    ensures text { IfSome result (λ _. IsTextOf network.now read.new text.now) }
{
    let mut words = LineWords::of(text, None);
    read.number = words.count()?;
    read.event.time = words.units()?;
    words.fixed("event")?;
    read.line = words.count()?;
    exact_what(network, words.rest()?, &mut read.event.what)?;
    Some(())
}
