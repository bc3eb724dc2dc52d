ghost use Rattle.std.specs.Prelude.{◌≡◌, ◌⊎◌};
ghost use Rattle.tte_forms.specs.{Answering.{ForOctets, Gives, GivesAnswer}, networks.Accepting.IsNetworkAnswer};
ghost use Rattle.tte_forms.specs.{Faults.{HasCause, IsWanted, PutFailed, ReadFailed}, Putting.Over};
ghost use Rattle.{tte_forms.specs.{Taking.TakesUpTo, frames.Answer.file_limit}, tte_reports.specs.Answer.IsAuditStatus};
ghost use Rattle.tte_reports.specs.Answer.{audit_limit, audited_answer};
ghost use Rattle.tte_reports.specs.{Reading.ReadsReport, Reports.{IsAuditAnswer, IsAuditedAnswer}, Safely.AuditsSafely};

use crate::audit_line::make_audited_line;
use crate::{AuditedReport, ReportCommand, answer_report};
use net_plan::Network;
use std::alloc::Global;
use tte_forms::{Status, put_last};
use tte_io::{LineText, Sink, Source};

/// How many octets a report has at most for it.
const AUDIT_LIMIT: u32 = 16_777_216;

/// The command that says no more of a report than how many records it has.
pub struct Audit;

impl<K: Sink> ReportCommand<K> for Audit {
    ghost answers = { λ command network notes end answer. IsAuditedAnswer network notes end answer };

    ghost ends = { λ command status. IsAuditStatus status };

    ghost audits = { λ command status is. is };

    fn put(
        &self,
        _alloc: Global,
        _network: &Network,
        report: &AuditedReport,
        out: &mut K,
    ) -> Status {
        put_audited(report.count(), out)
    }
}

/// Judges the finished report of the second file over the network of the first, record by record. It is the report of
/// the run under the events that its own records tell, or it is refused at its first fault.
pub fn audit_report<A: Source, B: Source, K: Sink>(
    alloc: Global,
    first: &mut A,
    second: &mut B,
    out: &mut K,
) -> Status
    ensures general { Over K.Sink out.old out.new (λ old new.
        ForOctets (A.left first.old) (λ octets. ForOctets (B.left second.old) (λ report.
        GivesAnswer (IsNetworkAnswer (IsAuditAnswer report) octets) result old new))) }
    ensures safe { AuditsSafely (A.left first.old) (B.left second.old) result }
    ensures statuses { IsAuditStatus result }
    // Where a source failed, nothing was written.
    ensures faults { HasCause result
        ((ReadFailed A.Source first.old first.new × (out.new ≡ out.old) × (second.new ≡ second.old))
        ⊎ (ReadFailed B.Source second.old second.new × (out.new ≡ out.old)))
        (PutFailed K.Sink out.old out.new) }
    ensures takes { TakesUpTo file_limit (A.left first.old) (A.left first.new)
        × ((second.new ≡ second.old)
        ⊎ ReadsReport audit_limit (A.left first.old) (B.left second.old) (B.left second.new) result) }
{
    answer_report(alloc, first, second, AUDIT_LIMIT, &Audit, out)
}

fn put_audited<K: Sink>(count: u64, out: &mut K) -> Status
    ensures gives { Over K.Sink out.old out.new (Gives (audited_answer count) result) }
    ensures status { IsWanted Status.Done result (PutFailed K.Sink out.old out.new) }
{
    let mut line = LineText::new();
    make_audited_line(&mut line, count);
    put_last(line.as_slice(), Status::Done, out)
}
