ghost use Rattle.std.specs.Prelude.{◌<◌, ◌^◌, ◌≡◌, List, MatchResult, length, ℕ};
ghost use Rattle.{audit_sweep.specs.Sweeping.SweepsSome, run_law.specs.declared.note.Note.{Note as NoteValue}};
ghost use Rattle.{net_plan.specs.declared.network.Network.{Network as NetworkValue}, report_text.specs.Ranges.IsBodyOf};
ghost use Rattle.tte_audit.specs.{Answers.IsRefusedBy, LineSwept.IsLineSwept, Passing.IsPassed};
ghost use Rattle.tte_audit.specs.{Named.IsNamed, Report.{HasNoEvent, IsNextLine}, Telling.IsReadOf};

use crate::event_lines::EventRecord;
use crate::hints::NameHints;
use crate::lines::{numbered_event, plain_record};
use crate::named::named_network;
use crate::swift::audited;
use crate::{AuditRefusal, PassedReport, ReportEvents, read_events};
use audit_sweep::Sweep;
use net_plan::Network;
use run_law::Note;
use run_law::plain::no_record;
use schedule_tables::Accepted;
use std::alloc::Global;
use tte_units::Units;

/// Audits a finished report, record by record and without a run, and answers what is kept of it.
///
/// The report has fewer than 2^32 octets. It is passed exactly where it is that of the run of the network under the
/// events that its own records tell. Otherwise it is refused by the first thing that is wrong, in the order of
/// `AuditRefusal`; or memory has run out.
pub fn audit(
    alloc: Global,
    accepted: &Accepted,
    report: &[u8],
) -> Result<PassedReport, AuditRefusal>
    requires { length report.now < 2 ^ 32 }
    ensures judged { MatchResult result
        (IsPassed accepted.now report.now)
        (λ refusal. IsRefusedBy accepted.now report.now refusal) }
    ensures named { IsNamed accepted.now }
{
    let network = named_network(accepted);
    if let Some(passed) = audited(alloc, accepted, report) {
        return Ok(passed);
    }
    match read_events(alloc, accepted, report) {
        Ok(read) => audit_records(alloc, network, report, read),
        Err(refusal) => Err(refusal),
    }
}

/// Audits the records of a report of which the events are read.
fn audit_records(
    alloc: Global,
    network: &Network,
    report: &[u8],
    read: ReportEvents,
) -> Result<PassedReport, AuditRefusal>
    requires named { IsNamed network.now }
    requires short { length report.now < 2 ^ 32 }
    requires told { (notes : List NoteValue) × IsReadOf network.now report.now notes read }
    ensures { MatchResult result
        (IsPassed network.now report.now)
        (λ refusal. IsRefusedBy network.now report.now refusal) }
{
    let mut sweep = match Sweep::new(alloc, network, read.history, read.end) {
        Ok(sweep) => sweep,
        Err(_) => return Err(AuditRefusal::OutOfMemory),
    };
    let hints = NameHints::of(network);
    let mut rest = report;
    let mut records = 0;
    let mut note = no_record();
    'records: while !rest.is_empty() {
        match take_line(&mut sweep, network, &hints, records + 1, rest, &mut note) {
            Ok(left) => {
                records += 1;
                rest = left;
            }
            Err(refusal) => return Err(refusal),
        }
    }
    match sweep.first_lack() {
        Some(time) => Err(AuditRefusal::Lacking(Units::from_amount(time))),
        None => Ok(PassedReport {
            count: records,
            index: sweep.into_index(),
        }),
    }
}

// Takes the record of this number, whose line comes first, and answers what is left. It is put in the place of another.
fn take_line<'r>(
    sweep: &mut Sweep,
    network: &Network,
    hints: &NameHints,
    number: u64,
    octets: &'r [u8],
    note: &mut Note,
) -> Result<&'r [u8], AuditRefusal>
    requires named { IsNamed network.now }
    requires swept { SweepsSome sweep.old }
    requires same { sweep.old.network.now ≡ network.now }
    ensures { IsLineSwept network.now number sweep.old sweep.new octets.now result }
{
    match plain_record(network, hints, number, octets) {
        Some(taken) => {
            taken.read.note_in(note);
            judge(sweep, note, taken.left)
        }
        None => take_event(sweep, network, number, octets),
    }
}

// The same, for a record of an event.
#[inline(never)]
pub(crate) fn take_event<'r>(
    sweep: &mut Sweep,
    network: &Network,
    number: u64,
    octets: &'r [u8],
) -> Result<&'r [u8], AuditRefusal>
    requires named { IsNamed network.now }
    requires swept { SweepsSome sweep.old }
    requires same { sweep.old.network.now ≡ network.now }
    requires event { (note : NoteValue) (left : List ℕ) → IsNextLine network.now number octets.now left note
        → HasNoEvent note.body → ⊥ }
    ensures { IsLineSwept network.now number sweep.old sweep.new octets.now result }
{
    let mut read = EventRecord::none();
    match numbered_event(network, number, octets, &mut read) {
        Some(left) => judge(sweep, &read.into_note(), left),
        None => Err(AuditRefusal::Form(number)),
    }
}

// Takes the record, behind which this is left.
pub(crate) fn judge<'r>(
    sweep: &mut Sweep,
    note: &Note,
    left: &'r [u8],
) -> Result<&'r [u8], AuditRefusal>
    requires swept { SweepsSome sweep.old }
    requires named { IsBodyOf sweep.old.network.now note.now.body }
    ensures { (network : NetworkValue) (number : ℕ) (octets : List ℕ)
        → IsNextLine network number octets left.now note.now
        → IsLineSwept network number sweep.old sweep.new octets result }
{
    match sweep.take(note) {
        Ok(true) => Ok(left),
        Ok(false) => Err(AuditRefusal::Unfounded(note.number)),
        Err(_) => Err(AuditRefusal::OutOfMemory),
    }
}
