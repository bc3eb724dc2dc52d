//! A command over a report as a value: what it answers for the records, and how it puts that. All else is the same for
//! each: the network is accepted, the report is read and audited, and where there is none, it is said why.

ghost use Rattle.std.specs.Prelude.{◌≡◌, ◌⊎◌, List};
ghost use Rattle.net_plan.specs.declared.network.Network.{Network as NetworkValue};
ghost use Rattle.{tte_reports.specs.Answer.IsAuditStatus, tte_units.specs.declared.units.Units.{Units as UnitsValue}};
ghost use Rattle.run_law.specs.declared.note.Note.{Note as NoteValue};
ghost use Rattle.tte_forms.specs.{Taking.TakesUpTo, frames.Answer.file_limit, networks.Accepting.IsNetworkAnswer};
ghost use Rattle.tte_forms.specs.{Answering.{ForOctets, GivesAnswer}, Faults.{HasCause, PutFailed, ReadFailed}};
ghost use Rattle.tte_forms.specs.{Putting.Over, declared.status.Status.{Status as StatusValue}};
ghost use Rattle.tte_reports.specs.{Commands.{CompletesReport, IsRead}, Reading.{ReadsReport, TakesReport}};
ghost use Rattle.tte_reports.specs.{Reports.{AnswersFor, IsReportAnswer, IsReportOf}, Safely.AuditsSafely};
ghost use Rattle.{schedule_tables.specs.Rules.KeepsRules, tte_audit.specs.Named.IsNamed};

use crate::{AuditedReport, put_no_report, read_report};
use net_plan::Network;
use schedule_tables::Accepted;
use std::alloc::Global;
use tte_audit::named_network;
use tte_forms::{Status, accept, put_no_network};
use tte_io::{Sink, Source};

/// What is asked of a finished report.
pub trait ReportCommand<K: Sink> {
    /// Which answers it has for the records of a report of a network, up to their end.
    ghost answers: { Self → AnswersFor };

    /// With which statuses it ends.
    ghost ends: { Self → StatusValue → Type 0 };

    /// Writes its answer for a report that was read and audited.
    fn put(&self, alloc: Global, network: &Network, report: &AuditedReport, out: &mut K) -> Status
        requires named { IsNamed network.now }
        requires rules { KeepsRules network.now }
        requires read { IsRead network.now report.now }
        ensures gives { Over K.Sink out.old out.new (λ old new. (notes : List NoteValue) (end : UnitsValue)
            → IsReportOf network.now report.now.octets notes end
            → GivesAnswer (answers self.now network.now notes end) result old new) }
        ensures statuses { ends self.now result }
        ensures cause { HasCause result ⊥ (PutFailed K.Sink out.old out.new) };

    /// It may end as an audit does.
    ghost audits: { (command : Self) (status : StatusValue) → IsAuditStatus status → ends command status };
}

/// Answers the command for the finished report of the second file over the network of the first.
///
/// The second file is read only where the network is accepted, and whole, and is audited before the first write. It has
/// at most `limit` octets.
pub fn answer_report<A: Source, B: Source, K: Sink, C: ReportCommand<K>>(
    alloc: Global,
    first: &mut A,
    second: &mut B,
    limit: u32,
    command: &C,
    out: &mut K,
) -> Status
    ensures general { Over K.Sink out.old out.new (λ old new.
        ForOctets (A.left first.old) (λ octets. ForOctets (B.left second.old) (λ report.
        GivesAnswer (IsNetworkAnswer (IsReportAnswer limit (C.answers command.now) report) octets) result old new))) }
    ensures safe { AuditsSafely (A.left first.old) (B.left second.old) result }
    ensures statuses { C.ends command.now result }
    // Where a source failed, nothing was written.
    ensures faults { HasCause result
        ((ReadFailed A.Source first.old first.new × (out.new ≡ out.old) × (second.new ≡ second.old))
        ⊎ (ReadFailed B.Source second.old second.new × (out.new ≡ out.old)))
        (PutFailed K.Sink out.old out.new) }
    ensures takes { TakesUpTo file_limit (A.left first.old) (A.left first.new)
        × ((second.new ≡ second.old)
        ⊎ ReadsReport limit (A.left first.old) (B.left second.old) (B.left second.new) result) }
    ensures complete { CompletesReport limit (C.answers command.now) (A.left first.old) (B.left second.old)
        (ReadFailed A.Source first.old first.new ⊎ ReadFailed B.Source second.old second.new)
        (PutFailed K.Sink out.old out.new) result }
{
    match accept(alloc, first) {
        Ok(accepted) => answer_accepted(alloc, &accepted, second, limit, command, out),
        Err(cause) => put_no_network(cause, out),
    }
}

/// The same, over a network that was accepted.
pub fn answer_accepted<B: Source, K: Sink, C: ReportCommand<K>>(
    alloc: Global,
    accepted: &Accepted,
    second: &mut B,
    limit: u32,
    command: &C,
    out: &mut K,
) -> Status
    ensures gives { Over K.Sink out.old out.new (λ old new. ForOctets (B.left second.old) (λ report.
        GivesAnswer (IsReportAnswer limit (C.answers command.now) report accepted.now) result old new)) }
    ensures statuses { C.ends command.now result }
    ensures cause { HasCause result (ReadFailed B.Source second.old second.new × (out.new ≡ out.old))
        (PutFailed K.Sink out.old out.new) }
    ensures taken { TakesReport limit (B.left second.old) (B.left second.new) result }
{
    match read_report(alloc, accepted, second, limit) {
        Ok(report) => answer_read(alloc, accepted, &report, command, out),
        Err(cause) => put_no_report(cause, out),
    }
}

/// The same, for a report that was read and audited.
fn answer_read<K: Sink, C: ReportCommand<K>>(
    alloc: Global,
    accepted: &Accepted,
    report: &AuditedReport,
    command: &C,
    out: &mut K,
) -> Status
    requires { IsRead accepted.now report.now }
    ensures gives { Over K.Sink out.old out.new (λ old new. (notes : List NoteValue) (end : UnitsValue)
        → IsReportOf accepted.now report.now.octets notes end
        → GivesAnswer (C.answers command.now accepted.now notes end) result old new) }
    ensures statuses { C.ends command.now result }
    ensures cause { HasCause result ⊥ (PutFailed K.Sink out.old out.new) }
{
    command.put(alloc, named_network(accepted), report, out)
}
