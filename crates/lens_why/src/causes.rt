//! The records of a report by their numbers and by their causes.
ghost use Rattle.std.specs.Prelude.{◌≡◌, List};
ghost use Rattle.lens_why.specs.Records.{IsFound};
ghost use Rattle.{run_law.specs.declared.note.Note.{Note as NoteValue}, tte_audit.specs.Named.IsNamed};
ghost use Rattle.tte_reports.specs.{Commands.IsRead, Reports.IsReportOf};
ghost use Rattle.tte_units.specs.declared.units.Units.{Units as UnitsValue};

use net_plan::Network;
use run_law::Note;
use tte_reports::AuditedReport;

/// The record of the number, or how many there are where there is none.
pub(crate) fn record_at(report: &AuditedReport, network: &Network, number: u64) -> Result<Note, u64>
    requires named { IsNamed network.now }
    requires read { IsRead network.now report.now }
    ensures { (notes : List NoteValue) (end : UnitsValue)
        → IsReportOf network.now report.now.octets notes end → IsFound notes number result }
{
    match report.record(network, number) {
        Some(note) => Ok(note),
        None => Err(report.count()),
    }
}
