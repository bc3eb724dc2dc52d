ghost use Rattle.{lens_clocks.specs.Answer.IsClocksAnswer, tte_reports.specs.Answer.IsAuditStatus};

use crate::cycles::put_cycles;
use net_plan::Network;
use std::alloc::Global;
use tte_forms::Status;
use tte_io::Sink;
use tte_reports::{AuditedReport, ReportCommand};

/// Tells, at each world time at which one more cycle has passed, up to the end of the run, what the local clock of each
/// device shows that is correct and synchronised then, and how far these are apart. `clocks_law` says that they are
/// never further apart than the precision.
pub struct Clocks;

impl<K: Sink> ReportCommand<K> for Clocks {
    ghost answers = { λ command network notes end answer. IsClocksAnswer network notes end answer };

    ghost ends = { λ command status. IsAuditStatus status };

    ghost audits = { λ command status is. is };

    fn put(&self, alloc: Global, network: &Network, report: &AuditedReport, out: &mut K) -> Status {
        let until = report.index.end.0.unsigned_abs();
        put_cycles(alloc, network, &report.index, until, out)
    }
}
