//! The marks of the records that are drawn, one after another.
ghost use Rattle.std.specs.Prelude.{◌≡◌, List, MatchResult};
ghost use Rattle.lens.specs.draw.{Answer.back_answer, Picture.{found_line, found_lines}};
ghost use Rattle.{lens_svg.specs.Sketching.plan_of, run_law.specs.declared.note.Note.{Note as NoteValue}};
ghost use Rattle.tte_forms.specs.{Answering.Gives, Faults.{HasCause, PutFailed}, Putting.{Over, Puts}};
ghost use Rattle.{tte_audit.specs.Named.IsNamed, tte_units.specs.declared.units.Units.{Units as UnitsValue}};
ghost use Rattle.tte_reports.specs.{Answer.IsAuditStatus, Commands.IsRead, Places.note_at, Reports.IsReportOf};

use crate::draw::signs::CLOSE;
use lens_svg::{Mark, Sketch, make_mark_line};
use net_plan::Network;
use tte_forms::{Status, put_last};
use tte_io::{LineText, Sink, SinkFailed};
use tte_reports::AuditedReport;

/// Puts the line of a mark, whose record is looked up by its number.
fn put_mark<K: Sink>(
    network: &Network,
    report: &AuditedReport,
    mark: &Mark,
    line: &mut LineText,
    out: &mut K,
) -> Result<(), SinkFailed>
    requires named { IsNamed network.now }
    requires read { IsRead network.now report.now }
    ensures draws { Over K.Sink out.old out.new (λ old new. (notes : List NoteValue) (end : UnitsValue)
        → IsReportOf network.now report.now.octets notes end
        → Puts (found_line network.now mark.now (note_at notes mark.now.number)) result old new) }
    ensures faults { MatchResult result (λ _. K.faults out.new ≡ K.faults out.old)
        (λ _. PutFailed K.Sink out.old out.new) }
{
    match report.record(network, mark.number) {
        Some(note) => {
            make_mark_line(line, network, mark, &note);
            out.put(line.as_slice())
        }
        None => Ok(()),
    }
}

/// Puts the lines of these marks.
fn put_drawn<K: Sink>(
    network: &Network,
    report: &AuditedReport,
    marks: &[Mark],
    line: &mut LineText,
    out: &mut K,
) -> Result<(), SinkFailed>
    requires named { IsNamed network.now }
    requires read { IsRead network.now report.now }
    ensures draws { Over K.Sink out.old out.new (λ old new. (notes : List NoteValue) (end : UnitsValue)
        → IsReportOf network.now report.now.octets notes end
        → Puts (found_lines network.now notes marks.now) result old new) }
    ensures faults { MatchResult result (λ _. K.faults out.new ≡ K.faults out.old)
        (λ _. PutFailed K.Sink out.old out.new) }
{
    'drawn: for mark in marks {
        match put_mark(network, report, mark, line, out) {
            Ok(()) => (),
            Err(cause) => return Err(cause),
        }
    }
    Ok(())
}

/// Puts the marks of the picture, and its end.
pub(crate) fn put_back<K: Sink>(
    network: &Network,
    report: &AuditedReport,
    sketch: &Sketch,
    line: &mut LineText,
    out: &mut K,
) -> Status
    requires named { IsNamed network.now }
    requires read { IsRead network.now report.now }
    ensures gives { Over K.Sink out.old out.new (λ old new. (notes : List NoteValue) (end : UnitsValue)
        → IsReportOf network.now report.now.octets notes end
        → sketch.now ≡ plan_of network.now sketch.now.view notes
        → Gives (back_answer network.now sketch.now.view sketch.now.marks notes) result old new) }
    ensures statuses { IsAuditStatus result }
    ensures cause { HasCause result ⊥ (PutFailed K.Sink out.old out.new) }
{
    match put_drawn(network, report, sketch.marks(), line, out) {
        Ok(()) => put_last(CLOSE.as_bytes(), Status::Done, out),
        Err(_) => Status::WriteFault,
    }
}
