ghost use Rattle.std.specs.{Fmt.signed_decimal, Io.KnownBytes.Appends};
ghost use Rattle.std.specs.Prelude.{◌++◌, ◌≡◌, ◌≤◌, MatchResult, OnErr, OnOk, codes, decimal, length};
ghost use Rattle.{net_plan.specs.Belonging.IsOfNetwork, report_text.specs.{NoteLine.note_line, Ranges.IsNoteOf}};
ghost use Rattle.{net_plan.specs.Ranges.IsInRange, tte_io.specs.{Faults.{Rose, next_count}, Told.AppendsFront}};
ghost use Rattle.run_law.specs.declared.note.NoteBody.TheVariants as bodies;

use crate::fields::push_units;
use crate::kinds::{push_body, push_event, push_plain};
use crate::numbers::NumberText;
use crate::times::TimeText;
use net_plan::{Event, Network};
use run_law::Note;
use run_law::plain::PlainNote;
use tte_io::{LineText, Sink, SinkFailed};
use tte_units::Units;

// Begins a record's line: its number, its time and the space behind it.
fn begin_line(line: &mut LineText, number: u64, time: Units)
    ensures text { line.new ≡ decimal number ++ codes " " ++ signed_decimal time.0 ++ codes " " }
    ensures short { length line.new ≤ 43 }
{
    line.clear();
    line.push_decimal(number);
    line.push(" ");
    push_units(line, time);
    line.push(" ");
}

/// Makes a record's line, ended by LF: its number, its time, and what it says.
///
/// The network is in its ranges, and the record's devices, links and virtual links are its own.
pub fn make_note_line(line: &mut LineText, network: &Network, note: &Note)
    requires in_range { IsInRange network.now }
    requires of_network { IsNoteOf network.now note.now }
    ensures { line.new ≡ note_line network.now note.now }
{
    begin_line(line, note.number, note.time);
    push_body(line, network, &note.body);
    line.push("\n");
}

/// Makes the line of a record of no event, ended by LF: its number, its time, and what it says. The texts of its time and
/// its number are kept for the next record.
///
/// The network is in its ranges, and the record's devices, links and virtual links are its own.
pub fn make_plain_line(
    line: &mut LineText,
    times: &mut TimeText,
    numbers: &mut NumberText,
    network: &Network,
    note: &PlainNote,
)
    requires in_range { IsInRange network.now }
    requires of_network { IsNoteOf network.now note.now }
    ensures { line.new ≡ note_line network.now note.now }
{
    line.clear();
    numbers.push_in(line, note.number);
    line.push(" ");
    times.push_in(line, note.time);
    line.push(" ");
    let body = &note.body;
    push_plain(line, network, &body.kind);
    line.push("\n");
}

/// Makes the line, ended by LF, of the record of an event, which stands in this line of its trace.
///
/// The network is in its ranges, and the event's device and link are its own.
#[tactic(auto, unfolding(crate::specs::NoteLine::body_text))]
pub fn make_event_line(
    line: &mut LineText,
    network: &Network,
    number: u64,
    of_trace: u64,
    event: &Event,
)
    requires in_range { IsInRange network.now }
    requires of_network { IsOfNetwork network.now event.now.what }
    ensures { line.new ≡ note_line network.now
        (record { number = number; time = event.now.time; body = bodies.Event of_trace event.now.what }) }
{
    begin_line(line, number, event.time);
    push_event(line, network, of_trace, &event.what);
    line.push("\n");
}

/// Puts a record's line, ended by LF, in one put. It is made in `line`, which callers keep for the
/// next one.
///
/// The network is in its ranges, and the record's devices, links and virtual links are its own.
pub fn write_in<K: Sink>(
    line: &mut LineText,
    network: &Network,
    note: &Note,
    out: &mut K,
) -> Result<(), SinkFailed>
    requires in_range { IsInRange network.now }
    requires of_network { IsNoteOf network.now note.now }

    ensures all { OnOk result (Appends (K.written out.old) (K.written out.new) (note_line network.now note.now)) }
    ensures front { OnErr result
        (AppendsFront (K.written out.old) (K.written out.new) (note_line network.now note.now)) }
    ensures counted { K.puts out.new ≡ next_count (K.puts out.old) }

    ensures never_falls { K.faults out.old ≤ K.faults out.new }
    ensures ok_unchanged { OnOk result (K.faults out.new ≡ K.faults out.old) }
    ensures failed_rose { OnErr result (Rose (K.faults out.old) (K.faults out.new)) }
{
    make_note_line(line, network, note);
    out.put(line.as_slice())
}

/// Puts a record's line, ended by LF, in one put.
///
/// The network is in its ranges, and the record's devices, links and virtual links are its own.
pub fn write<K: Sink>(network: &Network, note: &Note, out: &mut K) -> Result<(), SinkFailed>
    requires in_range { IsInRange network.now }
    requires of_network { IsNoteOf network.now note.now }

    ensures puts { MatchResult result
        (λ _. Appends (K.written out.old) (K.written out.new) (note_line network.now note.now))
        (λ _. AppendsFront (K.written out.old) (K.written out.new) (note_line network.now note.now)) }
    ensures counted { K.puts out.new ≡ next_count (K.puts out.old) }

    ensures never_falls { K.faults out.old ≤ K.faults out.new }
    ensures faults { MatchResult result (λ _. K.faults out.new ≡ K.faults out.old)
        (λ _. Rose (K.faults out.old) (K.faults out.new)) }
{
    let mut line = LineText::new();
    write_in(&mut line, network, note, out)
}
