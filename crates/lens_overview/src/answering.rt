ghost use Rattle.std.specs.Prelude.{◌≡◌, IfOk, List, []};
ghost use Rattle.lens_flows.specs.counts.FlowLists.{AreFlows};
ghost use Rattle.lens_flows.specs.declared.judge.flow.Flow.{Flow as FlowValue};
ghost use Rattle.lens_overview.specs.{Answer.{IsOverviewAnswer, picture_for, pieces_answer}, Lines.piece_line};
ghost use Rattle.net_plan.specs.Ranges.{IsInRange};
ghost use Rattle.{run_law.specs.declared.note.Note.{Note as NoteValue}, tte_audit.specs.Named.IsNamed};
ghost use Rattle.tte_forms.specs.{Answering.Gives, Faults.{IsWanted, PutFailed}, Putting.Over};
ghost use Rattle.tte_reports.specs.{Answer.IsAuditStatus, Commands.IsRead, Reports.IsReportOf};
ghost use Rattle.tte_units.specs.declared.units.Units.{Units as UnitsValue};

use crate::cells::Run;
use crate::copies::copies_in;
use crate::grid::Grid;
use crate::lines::make_piece;
use crate::news::last_cycle;
use crate::parts::{RowSort, part_of};
use crate::pieces::{Piece, pieces_of};
use crate::telling::told_by;
use lens_flows::counts::flows_of;
use lens_svg::Title;
use net_plan::Network;
use std::alloc::Global;
use tte_forms::{LineMaker, Status, Words, put_lines};
use tte_io::{LineText, OutOfMemory, Sink};
use tte_reports::{AuditedReport, ReportCommand};

/// Draws the whole run of a report, as a picture in SVG: a column for each cycle.
///
/// There is a picture of each report, however long: of a long run a column holds several cycles.
#[derive(Drop)]
pub struct Overview<'a> {
    /// The words of the call, which are the name of the picture.
    pub words: &'a Words,
}

impl<'a, K: Sink> ReportCommand<K> for Overview<'a> {
    ghost answers = { λ command network notes end answer.
        IsOverviewAnswer command.words.now network notes end answer };

    ghost ends = { λ command status. IsAuditStatus status };

    ghost audits = { λ command status is. is };

    fn put(&self, alloc: Global, network: &Network, report: &AuditedReport, out: &mut K) -> Status {
        let title = Title::of(self.words);
        match drawn(alloc, network, report) {
            Ok(pieces) => put_pieces(network, &title, pieces.as_slice(), out),
            Err(_) => Status::OutOfMemory,
        }
    }
}

/// The pieces of the picture of a report.
fn drawn(
    alloc: Global,
    network: &Network,
    report: &AuditedReport,
) -> Result<Vec<Piece>, OutOfMemory>
    requires named { IsNamed network.now }
    requires read { IsRead network.now report.now }
    ensures { IfOk result (λ all. (notes : List NoteValue) (end : UnitsValue)
        → IsReportOf network.now report.now.octets notes end → (flows : List FlowValue) × AreFlows network.now flows
        × (all.items ≡ picture_for network.now notes [] flows)) }
{
    let news = told_by(alloc, network, report)?;
    let Ok(flows) = flows_of(alloc, network) else {
        return Err(OutOfMemory);
    };
    let all = news.as_slice();
    let last = last_cycle(all);
    let grid = Grid::new(last);
    let counts = part_of(alloc, all, RowSort::Counts)?;
    let changes = part_of(alloc, all, RowSort::Changes)?;
    let copies = copies_in(alloc, all)?;
    let run = Run {
        news: all,
        counts: &counts,
        changes: &changes,
        copies: &copies,
        last,
        grid,
    };
    let pieces = pieces_of(alloc, network, run, flows.as_slice())?;
    Ok(pieces)
}

/// The lines of a picture's pieces.
#[derive(Drop)]
struct PieceLines<'a> {
    network: &'a Network,
    title: &'a Title,
}

impl LineMaker<Piece> for PieceLines<'_> {
    ghost fit = { λ lines. IsInRange lines.network.now };

    ghost takes = { λ lines piece. Unit {0} };

    ghost text = { λ lines piece. piece_line lines.network.now lines.title.now piece };

    fn make(&self, line: &mut LineText, thing: &Piece) {
        make_piece(line, self.network, self.title, thing);
    }
}

/// Puts the lines of the pieces, and passes them on.
fn put_pieces<K: Sink>(network: &Network, title: &Title, pieces: &[Piece], out: &mut K) -> Status
    requires { IsInRange network.now }
    ensures gives { Over K.Sink out.old out.new (Gives (pieces_answer network.now title.now pieces.now) result) }
    ensures status { IsWanted Status.Done result (PutFailed K.Sink out.old out.new) }
{
    put_lines(&PieceLines { network, title }, pieces, out)
}
