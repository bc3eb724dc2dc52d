ghost use Rattle.{lens_why.specs.Answer.{IsWhyAnswer, IsWhyStatus, why_audits}, tte_reports.specs.Commands.IsRead};
ghost use Rattle.{run_law.specs.declared.note.Note.{Note as NoteValue}, std.specs.Prelude.List};
ghost use Rattle.{lens_why.specs.Records.IsRecordOf, tte_units.specs.declared.units.Units.{Units as UnitsValue}};
ghost use Rattle.{report_text.specs.Ranges.IsNoteOf, tte_reports.specs.Reports.IsReportOf};
ghost use Rattle.{tte_audit.specs.Named.IsNamed, tte_forms.specs.Faults.{HasCause, IsWanted, PutFailed}};
ghost use Rattle.tte_forms.specs.{Answering.GivesAnswer, Putting.Over};

use crate::causes::record_at;
use crate::ground::ground_of;
use crate::lines::{make_refused_line, put_record};
use net_plan::Network;
use run_law::{Note, cause_of};
use std::alloc::Global;
use tte_forms::{Status, end_with, put_last};
use tte_io::{LineText, Sink};
use tte_reports::{AuditedReport, ReportCommand};

/// Tells of a report the record of the number and what bore on it, and so on by causes to a record without one.
///
/// Of each of these records it tells the line, and then a line `ground` where something bore on it that no line says.
/// `why_law` says of the chain that it goes back, and where that of a frame that was delivered begins.
#[derive(Drop)]
pub struct Why {
    pub number: u64,
}

impl<K: Sink> ReportCommand<K> for Why {
    ghost answers = { λ command network notes end answer. IsWhyAnswer command.number network notes end answer };

    ghost ends = { λ command status. IsWhyStatus status };

    ghost audits = { λ command status is. why_audits status is };

    fn put(
        &self,
        _alloc: Global,
        network: &Network,
        report: &AuditedReport,
        out: &mut K,
    ) -> Status {
        put_why(report, network, self.number, out)
    }
}

/// Puts the chain of the record of the number, or that there is none.
fn put_why<K: Sink>(report: &AuditedReport, network: &Network, number: u64, out: &mut K) -> Status
    requires named { IsNamed network.now }
    requires read { IsRead network.now report.now }
    ensures gives { Over K.Sink out.old out.new (λ old new. (notes : List NoteValue) (end : UnitsValue)
        → IsReportOf network.now report.now.octets notes end
        → GivesAnswer (IsWhyAnswer number network.now notes end) result old new) }
    ensures statuses { IsWhyStatus result }
    ensures cause { HasCause result ⊥ (PutFailed K.Sink out.old out.new) }
{
    match record_at(report, network, number) {
        Ok(first) => put_chain(report, network, first, out),
        Err(count) => {
            let mut line = LineText::new();
            make_refused_line(&mut line, number, count);
            put_last(line.as_slice(), Status::NumberRefused, out)
        }
    }
}

/// Puts the lines of the record, of its cause, of its cause's cause and so on.
fn put_chain<K: Sink>(report: &AuditedReport, network: &Network, first: Note, out: &mut K) -> Status
    requires named { IsNamed network.now }
    requires read { IsRead network.now report.now }
    requires record { IsRecordOf network.now report.now.octets first }
    ensures gives { Over K.Sink out.old out.new (λ old new. (notes : List NoteValue) (end : UnitsValue)
        → IsReportOf network.now report.now.octets notes end
        → GivesAnswer (IsWhyAnswer first.number network.now notes end) result old new) }
    ensures status { IsWanted Status.Done result (PutFailed K.Sink out.old out.new) }
{
    let mut line = LineText::new();
    let mut note = first;
    'records: loop {
        let cause = report.record(network, cause_of(&note.body));
        let ground = ground_of(report, network, &note, &cause);
        match put_record(&mut line, network, &note, ground, out) {
            Ok(()) => (),
            Err(_) => return Status::WriteFault,
        }
        match cause {
            Some(next) => note = next,
            None => return end_with(Status::Done, out),
        }
    }
}
