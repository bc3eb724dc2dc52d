//! What the records of a report show of the flows.

ghost use Rattle.std.specs.Prelude.{IfOk, List};
ghost use Rattle.lens_flows.specs.Answer.{AreAllTold};
ghost use Rattle.{run_law.specs.declared.note.Note.{Note as NoteValue}, tte_audit.specs.Named.IsNamed};
ghost use Rattle.tte_reports.specs.{Commands.IsRead, Reports.IsReportOf};
ghost use Rattle.tte_units.specs.declared.units.Units.{Units as UnitsValue};

use crate::counts::{FlowTold, deliveries_in, flows_of, tell_all};
use crate::judge::Course;
use net_plan::Network;
use std::alloc::{AllocError, Global};
use tte_reports::AuditedReport;

/// What is told of each flow by an audited report.
///
/// Fails when memory runs out.
pub(crate) fn flows_told(
    alloc: Global,
    network: &Network,
    report: &AuditedReport,
) -> Result<Vec<FlowTold>, AllocError>
    requires named { IsNamed network.now }
    requires read { IsRead network.now report.now }
    ensures { IfOk result (λ told. (notes : List NoteValue) (end : UnitsValue)
        → IsReportOf network.now report.now.octets notes end → AreAllTold network.now notes end told.items) }
{
    let records = report.index.records.as_slice();
    let seen = deliveries_in(alloc, records)?;
    let flows = flows_of(alloc, network)?;
    let all = flows.as_slice();
    let deliveries = seen.as_slice();
    let until = report.index.end.0.unsigned_abs();
    let course = Course {
        network,
        events: &report.index.events,
        standings: &report.index.standings,
        until,
    };
    let told = tell_all(alloc, &course, all, deliveries)?;
    Ok(told)
}
