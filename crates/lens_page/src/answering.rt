ghost use Rattle.{lens_page.specs.Answer.IsPageAnswer, tte_reports.specs.Answer.IsAuditStatus};

use crate::putting::put_page;
use crate::telling::network_text;
use net_plan::Network;
use std::alloc::Global;
use tte_forms::Status;
use tte_io::Sink;
use tte_reports::{AuditedReport, ReportCommand};

/// Writes the report as a page in HTML: lines that tell of the network and then the lines of the report, between two
/// texts that are the same for all. `page_law` says that the report is read back from it.
pub struct Page;

impl<K: Sink> ReportCommand<K> for Page {
    ghost answers = { λ command network notes end answer. IsPageAnswer network notes end answer };

    ghost ends = { λ command status. IsAuditStatus status };

    ghost audits = { λ command status is. is };

    fn put(&self, alloc: Global, network: &Network, report: &AuditedReport, out: &mut K) -> Status {
        match network_text(alloc, network) {
            Ok(text) => put_page(text.as_slice(), report.as_slice(), out),
            Err(_) => Status::OutOfMemory,
        }
    }
}
