ghost use Rattle.std.specs.{Io.KnownBytes.Appends, Prelude.{◌≡◌, IfErr, OnErr, OnOk}};
ghost use Rattle.net_plan.specs.Ranges.{IsInRange};
ghost use Rattle.{report_text.specs.NoteLine.note_line, tte_traces.specs.Report.{PutsReport, StopsReport}};
ghost use Rattle.{report_text.specs.Ranges.IsNoteOf, tte_io.specs.{Faults.{Rose, next_count}, Told.AppendsFront}};

use drift_world::EventNote;
use net_plan::{Event, Network};
use report_text::{NumberText, TimeText, make_event_line, make_plain_line};
use run_law::plain::PlainNote;
use tte_io::{LineText, Sink};
use tte_units::Units;
use world_drive::exact::ExactWorld;
use world_drive::{Cut, Observer};

/// Puts a line for each record of a run.
#[derive(Drop)]
pub(crate) struct Report {
    /// Where the lines are made, one after the other.
    text: LineText,
    /// The text of the last record's time.
    times: TimeText,
    numbers: NumberText,
}

impl Report {
    /// A report without lines.
    pub(crate) fn new() -> Report {
        Report {
            text: LineText::new(),
            times: TimeText::new(),
            numbers: NumberText::new(),
        }
    }
}

/// Puts the line of a record of no event.
fn put_note<K: Sink>(
    text: &mut LineText,
    times: &mut TimeText,
    numbers: &mut NumberText,
    network: &Network,
    note: &PlainNote,
    out: &mut K,
) -> Result<(), Cut>
    requires in_range { IsInRange network.now }
    requires of_network { IsNoteOf network.now note.now }
    ensures all { OnOk result (Appends (K.written out.old) (K.written out.new) (note_line network.now note.now)
        × (K.faults out.new ≡ K.faults out.old)) }
    ensures front { OnErr result (AppendsFront (K.written out.old) (K.written out.new) (note_line network.now note.now)
        × Rose (K.faults out.old) (K.faults out.new)) }
    ensures counted { K.puts out.new ≡ next_count (K.puts out.old) }
    ensures cut { IfErr result (λ cut. cut ≡ Cut.WriteFault) }
{
    make_plain_line(text, times, numbers, network, note);
    match out.put(text.as_slice()) {
        Ok(()) => Ok(()),
        Err(_) => Err(Cut::WriteFault),
    }
}

/// Puts the line of the record of an event.
fn put_event<K: Sink>(
    text: &mut LineText,
    network: &Network,
    note: &EventNote<'_>,
    out: &mut K,
) -> Result<(), Cut>
    requires in_range { IsInRange network.now }
    requires of_network { IsNoteOf network.now note.now }
    ensures all { OnOk result (Appends (K.written out.old) (K.written out.new) (note_line network.now note.now)
        × (K.faults out.new ≡ K.faults out.old)) }
    ensures front { OnErr result (AppendsFront (K.written out.old) (K.written out.new) (note_line network.now note.now)
        × Rose (K.faults out.old) (K.faults out.new)) }
    ensures counted { K.puts out.new ≡ next_count (K.puts out.old) }
    ensures cut { IfErr result (λ cut. cut ≡ Cut.WriteFault) }
{
    make_event_line(text, network, note.number, note.line, note.event);
    match out.put(text.as_slice()) {
        Ok(()) => Ok(()),
        Err(_) => Err(Cut::WriteFault),
    }
}

impl<K: Sink> Observer<K> for Report {
    ghost sees = { λ network events notes instant old put it. PutsReport network notes old.told put };

    ghost stops = { λ network events notes cut old put. StopsReport network notes cut old.told put };

    ghost cut = { λ network events notes instant old put it seen. seen };

    fn record(
        &mut self,
        _world: &ExactWorld<'_>,
        network: &Network,
        note: &PlainNote,
        out: &mut K,
    ) -> Result<bool, Cut> {
        match put_note(
            &mut self.text,
            &mut self.times,
            &mut self.numbers,
            network,
            note,
            out,
        ) {
            Ok(()) => Ok(false),
            Err(cut) => Err(cut),
        }
    }

    fn event(
        &mut self,
        _world: &ExactWorld<'_>,
        network: &Network,
        _event: &Event,
        note: &EventNote<'_>,
        out: &mut K,
    ) -> Result<(), Cut> {
        put_event(&mut self.text, network, note, out)
    }

    /// The end of an instant was not asked for.
    fn instant(
        &mut self,
        _world: &ExactWorld<'_>,
        _network: &Network,
        _time: Units,
        _out: &mut K,
    ) -> Result<(), Cut> {
        Ok(())
    }
}
