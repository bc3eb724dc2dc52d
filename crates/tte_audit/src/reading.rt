ghost use Rattle.std.specs.Prelude.{◌≢◌, IfSome, MatchOption, None, ℕ};
ghost use Rattle.{net_plan.specs.Ranges.IsInRange, tte_audit.specs.Report.{HasNoEvent, IsTextOf, saying}};
ghost use Rattle.{net_plan.specs.declared.event.What.What as WhatValue, run_law.specs.plain.Bodies.body_of};
ghost use Rattle.run_law.specs.declared.note.Note.{Note as NoteValue};
ghost use Rattle.run_law.specs.declared.note.NoteBody.TheVariants as bodies;
ghost use Rattle.run_law.specs.declared.plain.bodies.PlainKind.{PlainKind as PlainValue};
ghost use Rattle.{tte_audit.specs.Named.IsNamed, tte_units.specs.declared.units.Units.{Units as UnitsValue}};

use crate::event_lines::{EventRecord, event_line};
use crate::hints::NameHints;
use crate::line_words::LineWords;
use crate::plain_bodies::plain_of;
use net_plan::Network;
use run_law::Note;
use run_law::plain::{PlainBody, PlainNote};

/// The record without an event whose line, without its LF, the text is. It is None exactly where it is that of no such
/// record.
pub(crate) fn plain_line(
    network: &Network,
    hints: Option<&NameHints>,
    text: &[u8],
) -> Option<PlainNote>
    requires { IsInRange network.now }
    ensures is { (number : ℕ) (time : UnitsValue) (p : PlainValue)
        → IsTextOf network.now (saying number time (body_of p)) text.now → result ≢ None }
    ensures text { IfSome result (λ note. IsTextOf network.now note text.now) }
    ensures quiet { IfSome result (λ note. HasNoEvent note.body) }
{
    let mut words = LineWords::of(text, hints);
    let number = words.count()?;
    let time = words.units()?;
    let word = words.kind()?;
    let kind = plain_of(network, word, &mut words)?;
    Some(PlainNote {
        number,
        time,
        body: PlainBody { kind },
    })
}

// Reads the record of an event whose line the text is, into the place of another.
#[inline(never)]
fn read_event(network: &Network, text: &[u8], note: &mut Note) -> Option<()>
    requires { IsNamed network.now }
    ensures { MatchOption result
        ((number : ℕ) (time : UnitsValue) (line : ℕ) (w : WhatValue)
        → IsTextOf network.now (saying number time (bodies.Event line w)) text.now → ⊥)
        (λ _. IsTextOf network.now note.new text.now) }
{
    let mut read = EventRecord::none();
    event_line(network, text, &mut read)?;
    *note = read.into_note();
    Some(())
}

/// Reads the record whose line, without its LF, the text is, into the place of another. It is None exactly where the
/// text is the line of no record of the network. With hints the names are found sooner.
///
/// The network is in its ranges, and no two devices, no two links and no two virtual links have one name.
pub fn read_note(
    network: &Network,
    hints: Option<&NameHints>,
    text: &[u8],
    note: &mut Note,
) -> Option<()>
    requires { IsNamed network.now }
    ensures { MatchOption result
        ((other : NoteValue) → IsTextOf network.now other text.now → ⊥)
        (λ _. IsTextOf network.now note.new text.now) }
{
    match plain_line(network, hints, text) {
        Some(read) => {
            read.note_in(note);
            Some(())
        }
        None => read_event(network, text, note),
    }
}
