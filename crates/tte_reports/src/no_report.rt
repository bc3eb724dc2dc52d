ghost use Rattle.std.specs.Prelude.{◌≡◌, ◌≢◌, ◌≤◌, ◌⊎◌, length};
ghost use Rattle.tte_forms.specs.{Answering.{Gives, line_answer}, Faults.{HasCause, IsWanted, PutFailed}};
ghost use Rattle.{tte_forms.specs.Putting.{Over, PutsNone}, tte_reports.specs.NoReports.no_report_answer};
ghost use Rattle.tte_reports.specs.{Answer.{IsAuditStatus, report_refused_answer}, AuditLine.record_refusal_line};

use crate::audit_line::{make_lack_line, make_record_refusal_line};
use tte_audit::AuditRefusal;
use tte_forms::{Status, end_with, put_last};
use tte_io::{LineText, Sink};

/// Why a file gives no report of a run.
#[derive(Clone, Copy, PartialEq, Eq)]
pub enum NoReport {
    /// A read failed.
    ReadFault,
    /// The file has too many octets.
    TooLong,
    /// Memory ran out.
    OutOfMemory,
    /// The octets are not the report of the run under the events that they tell.
    Refused(AuditRefusal),
}

/// Answers that there is no report: the line that says why, where there is one, and the status.
pub fn put_no_report<K: Sink>(cause: NoReport, out: &mut K) -> Status
    ensures gives { Over K.Sink out.old out.new (Gives (no_report_answer cause) result) }
    ensures unput { (cause ≡ NoReport.ReadFault) ⊎ (cause ≡ NoReport.OutOfMemory)
        → (result ≢ Status.WriteFault) × Over K.Sink out.old out.new PutsNone }
    ensures statuses { IsAuditStatus result }
    ensures cause { HasCause result ((cause ≡ NoReport.ReadFault) × (out.new ≡ out.old))
        (PutFailed K.Sink out.old out.new) }
{
    match cause {
        NoReport::ReadFault => Status::ReadFault,
        NoReport::TooLong => end_with(Status::TooLong, out),
        NoReport::OutOfMemory => Status::OutOfMemory,
        NoReport::Refused(refusal) => put_report_refusal(refusal, out),
    }
}

/// Answers why the report is refused.
fn put_report_refusal<K: Sink>(refusal: AuditRefusal, out: &mut K) -> Status
    ensures gives { Over K.Sink out.old out.new (Gives (report_refused_answer refusal) result) }
    ensures statuses { IsAuditStatus result }
    ensures cause { HasCause result ⊥ (PutFailed K.Sink out.old out.new) }
{
    match refusal {
        AuditRefusal::Form(number) => put_record_refusal(number, "form", out),
        AuditRefusal::Events(number) => put_record_refusal(number, "events", out),
        AuditRefusal::Unfounded(number) => put_record_refusal(number, "unfounded", out),
        AuditRefusal::Lacking(time) => {
            let mut line = LineText::new();
            make_lack_line(&mut line, time);
            put_last(line.as_slice(), Status::AuditRefused, out)
        }
        AuditRefusal::OutOfMemory => Status::OutOfMemory,
    }
}

fn put_record_refusal<K: Sink>(number: u64, reason: &str, out: &mut K) -> Status
    requires { length reason.now ≤ 9 }
    ensures gives { Over K.Sink out.old out.new
        (Gives (line_answer Status.AuditRefused (record_refusal_line number reason.now)) result) }
    ensures status { IsWanted Status.AuditRefused result (PutFailed K.Sink out.old out.new) }
{
    let mut line = LineText::new();
    make_record_refusal_line(&mut line, number, reason);
    put_last(line.as_slice(), Status::AuditRefused, out)
}
