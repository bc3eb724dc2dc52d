//! A part of the run of a report as a picture of one thing.
ghost use Rattle.std.specs.Prelude.{◌≡◌, ◌⊎◌, IfOk, List};
ghost use Rattle.lens.specs.{Limit.report_limit, draw.Drafts.IsKeptDraft};
ghost use Rattle.lens.specs.draw.Naming.{IsKeptAnswer, IsNamedAnswer, IsNamedStatus, LeavesNamed, LeavesUnnamed, unknown_answer};
ghost use Rattle.{run_law.specs.declared.note.Note.{Note as NoteValue}, tte_audit.specs.Named.IsNamed};
ghost use Rattle.tte_forms.specs.{Answering.{ForOctets, Gives, GivesAnswer}, networks.Accepting.IsNetworkAnswer};
ghost use Rattle.tte_forms.specs.{Faults.{HasCause, IsWanted, PutFailed, ReadFailed}, Putting.Over};
ghost use Rattle.tte_forms.specs.{Taking.TakesUpTo, frames.Answer.file_limit};
ghost use Rattle.tte_reports.specs.{Answer.IsAuditStatus, Commands.IsRead, Reports.{IsReportOf, IsSomeReport}};
ghost use Rattle.tte_reports.specs.Reading.{ReadsReport, TakesReport};
ghost use Rattle.tte_units.specs.declared.units.Units.{Units as UnitsValue};

use crate::draw::drawing::{Draft, put_draft};
use crate::draw::flags::{glances_of, kept_flags};
use crate::draw::spans::span_of;
use crate::draw::subject::{Subject, subject_named};
use crate::forms::RunPart;
use crate::questions::REPORT_LIMIT;
use lens_svg::{DrawnRecords, Sketch, Span, Title};
use net_plan::Network;
use schedule_tables::Accepted;
use std::alloc::Global;
use tte_forms::{Status, Words, accept, put_last, put_no_network};
use tte_io::{OutOfMemory, Sink, Source};
use tte_reports::{AuditedReport, ReportCommand, answer_accepted};

/// Draws a part of the run of a report: of its records those of the thing and all their causes.
#[derive(Drop)]
struct DrawKept<'a> {
    words: &'a Words,
    part: RunPart,
    subject: Subject,
}

impl<'a, K: Sink> ReportCommand<K> for DrawKept<'a> {
    ghost answers = { λ command network notes end answer.
        IsKeptAnswer command.words.now command.part command.subject network notes end answer };

    ghost ends = { λ command status. IsAuditStatus status };

    ghost audits = { λ command status is. is };

    fn put(&self, alloc: Global, network: &Network, report: &AuditedReport, out: &mut K) -> Status {
        let span = span_of(network, self.part);
        let title = Title::of(self.words);
        match kept_draft(alloc, network, report, self.subject, span, title) {
            Ok(draft) => put_draft(alloc, network, report, &draft, out),
            Err(_) => Status::OutOfMemory,
        }
    }
}

/// What the picture of a thing takes of all records, each of which is read once: those in the span that are of the thing,
/// and their causes.
///
/// Fails when memory runs out.
fn kept_draft(
    alloc: Global,
    network: &Network,
    report: &AuditedReport,
    subject: Subject,
    span: Span,
    title: Title,
) -> Result<Draft, OutOfMemory>
    requires named { IsNamed network.now }
    requires report { IsSomeReport network.now report.now.octets }
    ensures { IfOk result (λ draft. (notes : List NoteValue) (end : UnitsValue)
        → IsReportOf network.now report.now.octets notes end
        → IsKeptDraft network.now subject span title notes draft) }
{
    let taken = glances_of(alloc, network, report, subject, span)?;
    let flags = kept_flags(alloc, network, span, taken.flags, &taken.glances)?;
    let kept = DrawnRecords { flags: Some(flags) };
    let sketch = Sketch::of(alloc, network, span, kept, title, &taken.glances)?;
    Ok(Draft {
        sketch,
        clocks: taken.clocks,
    })
}

/// Draws a part of the run that the report of the second file tells over the network of the first: of its records those
/// of the virtual link of the name, or else of the device of that name, and all their causes.
///
/// The name is judged before the second file is read.
pub(crate) fn draw_named<A: Source, B: Source, K: Sink>(
    alloc: Global,
    first: &mut A,
    second: &mut B,
    words: &Words,
    part: RunPart,
    name: &str,
    out: &mut K,
) -> Status
    ensures general { Over K.Sink out.old out.new (λ old new.
        ForOctets (A.left first.old) (λ octets. ForOctets (B.left second.old) (λ report.
        GivesAnswer (IsNetworkAnswer (IsNamedAnswer words.now part name.now report) octets) result old new))) }
    ensures statuses { IsNamedStatus result }
    // Where a source failed, nothing was written.
    ensures faults { HasCause result
        ((ReadFailed A.Source first.old first.new × (out.new ≡ out.old) × (second.new ≡ second.old))
        ⊎ (ReadFailed B.Source second.old second.new × (out.new ≡ out.old)))
        (PutFailed K.Sink out.old out.new) }
    ensures takes { TakesUpTo file_limit (A.left first.old) (A.left first.new)
        × LeavesUnnamed name.now (A.left first.old) (second.new ≡ second.old)
        × ((second.new ≡ second.old)
        ⊎ ReadsReport report_limit (A.left first.old) (B.left second.old) (B.left second.new) result) }
{
    match accept(alloc, first) {
        Ok(accepted) => draw_accepted(alloc, &accepted, second, words, part, name, out),
        Err(cause) => put_no_network(cause, out),
    }
}

/// The same, over a network that was accepted.
fn draw_accepted<B: Source, K: Sink>(
    alloc: Global,
    accepted: &Accepted,
    second: &mut B,
    words: &Words,
    part: RunPart,
    name: &str,
    out: &mut K,
) -> Status
    ensures gives { Over K.Sink out.old out.new (λ old new. ForOctets (B.left second.old) (λ report.
        GivesAnswer (IsNamedAnswer words.now part name.now report accepted.now) result old new)) }
    ensures statuses { IsNamedStatus result }
    ensures cause { HasCause result (ReadFailed B.Source second.old second.new × (out.new ≡ out.old))
        (PutFailed K.Sink out.old out.new) }
    ensures unread { LeavesNamed accepted.now name.now (second.new ≡ second.old) }
    ensures taken { (second.new ≡ second.old) ⊎ TakesReport report_limit (B.left second.old) (B.left second.new) result }
{
    match subject_named(accepted.network(), name) {
        Some(subject) => {
            let command = DrawKept {
                words,
                part,
                subject,
            };
            answer_accepted(alloc, accepted, second, REPORT_LIMIT, &command, out)
        }
        None => put_unknown(out),
    }
}

const UNKNOWN: &str = "refused name 1\n";

fn put_unknown<K: Sink>(out: &mut K) -> Status
    ensures gives { Over K.Sink out.old out.new (Gives unknown_answer result) }
    ensures status { IsWanted Status.NameRefused result (PutFailed K.Sink out.old out.new) }
{
    put_last(UNKNOWN.as_bytes(), Status::NameRefused, out)
}
