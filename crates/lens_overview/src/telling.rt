//! What the records of a report tell.
ghost use Rattle.std.specs.Prelude.{◌≡◌, IfOk, List};
ghost use Rattle.lens_overview.specs.Telling.{IsToldSoFar, news_by};
ghost use Rattle.{run_law.specs.declared.note.Note.{Note as NoteValue}, tte_audit.specs.Named.IsNamed};
ghost use Rattle.tte_reports.specs.{Commands.IsRead, Reports.IsReportOf};
ghost use Rattle.tte_units.specs.declared.units.Units.{Units as UnitsValue};

use crate::news::{News, news_of};
use audit_sweep::Index;
use net_plan::Network;
use run_law::Note;
use std::alloc::Global;
use tte_io::OutOfMemory;
use tte_reports::{AuditedReport, RecordTaker, take_records};

/// What all records so far tell.
#[derive(Drop)]
pub(crate) struct ToldSoFar<'a> {
    pub(crate) index: &'a Index,
    pub(crate) news: Vec<News>,
}

impl RecordTaker for ToldSoFar<'_> {
    ghost holds = { λ network notes before begun told. IsToldSoFar network notes before told };

    fn take(&mut self, network: &Network, note: &Note) -> Result<(), OutOfMemory> {
        let news = news_of(network, self.index, self.news.as_slice(), note);
        match self.news.push(news) {
            Ok(()) => Ok(()),
            Err(_) => Err(OutOfMemory),
        }
    }
}

/// What the records of the report tell, each of which is read once.
pub(crate) fn told_by(
    alloc: Global,
    network: &Network,
    report: &AuditedReport,
) -> Result<Vec<News>, OutOfMemory>
    requires named { IsNamed network.now }
    requires read { IsRead network.now report.now }
    ensures { IfOk result (λ all. (notes : List NoteValue) (end : UnitsValue)
        → IsReportOf network.now report.now.octets notes end → all.items ≡ news_by network.now notes notes) }
{
    // Room for all is taken at once: a list that grows holds its elements twice.
    let Ok(news) = Vec::with_capacity(alloc, report.count() as usize) else {
        return Err(OutOfMemory);
    };
    let mut told = ToldSoFar {
        index: &report.index,
        news,
    };
    take_records(report, network, &mut told)?;
    Ok(told.news)
}
