ghost use Rattle.std.specs.Prelude.{◌≡◌, IfOk, List, None};
ghost use Rattle.lens.specs.draw.{Answer.{IsDrawAnswer, IsViewAnswer, draw_answer, fitting_answer}, Picture.windows_of};
ghost use Rattle.{lens.specs.draw.Drafts.{IsDraft, IsDraftOf}, run_law.specs.declared.note.Note.{Note as NoteValue}};
ghost use Rattle.{lens_svg.specs.Sketching.plan_of, tte_forms.specs.Putting.Over};
ghost use Rattle.{tte_audit.specs.Named.IsNamed, tte_units.specs.declared.units.Units.{Units as UnitsValue}};
ghost use Rattle.tte_reports.specs.{Answer.IsAuditStatus, Commands.IsRead, Reports.{IsReportOf, IsSomeReport}};
ghost use Rattle.tte_forms.specs.{Answering.{Gives, GivesAnswer}, Faults.{HasCause, PutFailed}};

use crate::draw::marks::put_back;
use crate::draw::putting::put_front;
use crate::draw::windows::windows_of;
use lens_svg::{Came, Clocks, DrawnRecords, Glance, Sketch, Span, Title};
use net_plan::Network;
use run_law::Note;
use std::alloc::Global;
use tte_forms::{Status, Words, end_with};
use tte_io::{LineText, OutOfMemory, Sink};
use tte_reports::{AuditedReport, RecordTaker, ReportCommand, take_records};

/// Draws a part of the run of a report: the records whose times lie in the span, as a picture in SVG.
///
/// The titles of the marks are the lines of the report's records there, so nothing of it is lost.
#[derive(Drop)]
pub struct Draw<'a> {
    pub span: Span,
    /// The words of the call, which are the name of the picture.
    pub words: &'a Words,
}

impl<'a, K: Sink> ReportCommand<K> for Draw<'a> {
    ghost answers = { λ command network notes end answer.
        IsDrawAnswer command.words.now command.span network notes end answer };

    ghost ends = { λ command status. IsAuditStatus status };

    ghost audits = { λ command status is. is };

    fn put(&self, alloc: Global, network: &Network, report: &AuditedReport, out: &mut K) -> Status {
        let title = Title::of(self.words);
        match draft_of(alloc, network, self.span, title, report) {
            Ok(draft) => put_draft(alloc, network, report, &draft, out),
            Err(_) => Status::OutOfMemory,
        }
    }
}

/// What a picture takes of the records: a small value of each one in the span, and what those tell of clocks.
#[derive(Drop)]
pub(crate) struct Draft {
    pub(crate) sketch: Sketch,
    pub(crate) clocks: Clocks,
}

impl RecordTaker for Draft {
    ghost holds = { λ network notes before begun draft. IsDraftOf network begun.sketch before draft };

    fn take(&mut self, network: &Network, note: &Note) -> Result<(), OutOfMemory> {
        let glance = Glance::of(network, note);
        self.sketch.take(network, &glance)?;
        self.clocks.take(self.sketch.span(), note)?;
        Ok(())
    }
}

/// What the picture of a part takes of all records, each of which is read once.
///
/// Fails when memory runs out.
fn draft_of(
    alloc: Global,
    network: &Network,
    span: Span,
    title: Title,
    report: &AuditedReport,
) -> Result<Draft, OutOfMemory>
    requires named { IsNamed network.now }
    requires report { IsSomeReport network.now report.now.octets }
    ensures view { IfOk result (λ draft. draft.sketch.view ≡ record { span = span; kept = None; title = title }) }
    ensures is { IfOk result (IsDraft network.now report.now.octets) }
{
    let kept = DrawnRecords { flags: None };
    let sketch = match Sketch::new(alloc, network, span, kept, title) {
        Ok(sketch) => sketch,
        Err(_) => return Err(OutOfMemory),
    };
    let clocks = Clocks::new(alloc);
    let mut draft = Draft { sketch, clocks };
    take_records(report, network, &mut draft)?;
    Ok(draft)
}

/// Puts the picture of what was taken of an audited report.
pub(crate) fn put_draft<K: Sink>(
    alloc: Global,
    network: &Network,
    report: &AuditedReport,
    draft: &Draft,
    out: &mut K,
) -> Status
    requires named { IsNamed network.now }
    requires read { IsRead network.now report.now }
    requires draft { IsDraft network.now report.now.octets draft.now }
    ensures gives { Over K.Sink out.old out.new (λ old new. (notes : List NoteValue) (end : UnitsValue)
        → IsReportOf network.now report.now.octets notes end
        → GivesAnswer (IsViewAnswer draft.now.sketch.view network.now notes end) result old new) }
    ensures statuses { IsAuditStatus result }
    ensures cause { HasCause result ⊥ (PutFailed K.Sink out.old out.new) }
{
    match windows_of(alloc, network, &report.index, &draft.sketch) {
        Ok(windows) => put_sketch(network, report, draft, &windows, out),
        Err(_) => Status::OutOfMemory,
    }
}

/// Puts the picture, if it is not too wide.
fn put_sketch<K: Sink>(
    network: &Network,
    report: &AuditedReport,
    draft: &Draft,
    windows: &[Came],
    out: &mut K,
) -> Status
    requires named { IsNamed network.now }
    requires read { IsRead network.now report.now }
    requires draft { IsDraft network.now report.now.octets draft.now }
    ensures gives { Over K.Sink out.old out.new (λ old new. (notes : List NoteValue) (end : UnitsValue)
        → IsReportOf network.now report.now.octets notes end
        → windows.now ≡ windows_of network.now draft.now.sketch.view notes
        → Gives (draw_answer network.now draft.now.sketch.view notes) result old new) }
    ensures statuses { IsAuditStatus result }
    ensures cause { HasCause result ⊥ (PutFailed K.Sink out.old out.new) }
{
    if draft.sketch.fits() {
        put_fitting(network, report, &draft.sketch, windows, &draft.clocks, out)
    } else {
        end_with(Status::TooLong, out)
    }
}

/// Puts a picture that is not too wide.
fn put_fitting<K: Sink>(
    network: &Network,
    report: &AuditedReport,
    sketch: &Sketch,
    windows: &[Came],
    clocks: &Clocks,
    out: &mut K,
) -> Status
    requires named { IsNamed network.now }
    requires read { IsRead network.now report.now }
    ensures gives { Over K.Sink out.old out.new (λ old new. (notes : List NoteValue) (end : UnitsValue)
        → IsReportOf network.now report.now.octets notes end
        → sketch.now ≡ plan_of network.now sketch.now.view notes
        → Gives (fitting_answer network.now sketch.now windows.now clocks.now notes) result old new) }
    ensures statuses { IsAuditStatus result }
    ensures cause { HasCause result ⊥ (PutFailed K.Sink out.old out.new) }
{
    let mut line = LineText::new();
    match put_front(network, sketch, windows, clocks, &mut line, out) {
        Ok(()) => (),
        Err(_) => return Status::WriteFault,
    }
    put_back(network, report, sketch, &mut line, out)
}
