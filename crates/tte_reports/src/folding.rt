//! The records of a report, taken one after another in one pass.

ghost use Rattle.std.specs.Prelude.{◌++◌, ◌∷◌, List, OnOk, [], ℕ};
ghost use Rattle.net_plan.specs.declared.network.Network.{Network as NetworkValue};
ghost use Rattle.run_law.specs.declared.note.Note.{Note as NoteValue};
ghost use Rattle.tte_reports.specs.{Folding.{ComesNext, IsNextOf}, Reports.{IsReportOf, IsSomeReport}};
ghost use Rattle.{tte_audit.specs.Named.IsNamed, tte_units.specs.declared.units.Units.{Units as UnitsValue}};

use crate::AuditedReport;
use net_plan::Network;
use run_law::Note;
use run_law::plain::no_record;
use tte_audit::NameHints;
use tte_io::OutOfMemory;

/// What takes the records of a report one by one.
pub trait RecordTaker {
    /// What holds where of all these records of a report of a network it has taken these first ones: of it as it was
    /// before the first, and as it is now.
    ghost holds: { NetworkValue → List NoteValue → List NoteValue → Self → Self → Type 0 };

    /// Takes the next record.
    ///
    /// Fails when memory runs out.
    fn take(&mut self, network: &Network, note: &Note) -> Result<(), OutOfMemory>
        requires named { IsNamed network.now }
        requires next { ComesNext holds network.now note.now self.old }
        ensures { (octets : List ℕ) (notes before : List NoteValue) (begun : Self)
            → IsNextOf network.now octets notes before note.now → holds network.now notes before begun self.old
            → OnOk result (holds network.now notes (before ++ note.now ∷ []) begun self.new) };
}

/// Takes all records of the report.
///
/// Fails when memory runs out.
pub fn take_records<T: RecordTaker>(
    report: &AuditedReport,
    network: &Network,
    taker: &mut T,
) -> Result<(), OutOfMemory>
    requires named { IsNamed network.now }
    requires report { IsSomeReport network.now report.now.octets }
    requires none { (notes : List NoteValue) (end : UnitsValue)
        → IsReportOf network.now report.now.octets notes end → T.holds network.now notes [] taker.old taker.old }
    ensures { (notes : List NoteValue) (end : UnitsValue)
        → IsReportOf network.now report.now.octets notes end
        → OnOk result (T.holds network.now notes notes taker.old taker.new) }
{
    let hints = NameHints::of(network);
    let mut note = no_record();
    let mut records = report.records();
    'records: loop {
        match records.next_in(network, Some(&hints), &mut note) {
            Some(()) => taker.take(network, &note)?,
            None => return Ok(()),
        }
    }
}
