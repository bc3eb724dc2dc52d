ghost use Rattle.std.specs.{Io.KnownBytes.IsAtEnd, Prelude.{◌<◌, ◌^◌, ◌≡◌, ◌≢◌, ◌≤◌, Err, IfOk, List, MatchResult, length, ℕ}};
ghost use Rattle.{net_plan.specs.declared.network.Network.{Network as NetworkValue}, tte_forms.specs.Faults.ReadFailed};
ghost use Rattle.{run_law.specs.declared.note.Note.{Note as NoteValue}, tte_forms.specs.Answering.ForOctets};
ghost use Rattle.{tte_forms.specs.Taking.TakesUpTo, tte_reports.specs.Commands.IsRead};
ghost use Rattle.tte_units.specs.declared.units.Units.{Units as UnitsValue};
ghost use Rattle.tte_reports.specs.{NoReports.{IfJudged, IsNoReport}, Places.note_at};
ghost use Rattle.tte_reports.specs.Reports.{AreLeft, IsReportOf, IsSomeReport};
ghost use Rattle.tte_audit.specs.Named.{IsNamed};

use crate::places::places_of;
use crate::{NoReport, Records};
use audit_sweep::Index;
use net_plan::Network;
use run_law::Note;
use schedule_tables::Accepted;
use std::alloc::Global;
use tte_audit::{AuditRefusal, audit};
use tte_io::{Bytes, ReadAll, Source, read_all};

/// The octets of a report that was audited: those of a run.
#[derive(Drop)]
pub struct AuditedReport {
    octets: Bytes,
    // How many records it has.
    count: u64,
    // Where the line of each record begins.
    places: Vec<usize>,
    /// What its events set and its records show, at any of its times.
    pub index: Index,
}

impl AuditedReport {
    /// How many records the report has.
    pub fn count(&self) -> u64
        ensures { result ≡ self.now.count }
    {
        self.count
    }

    /// The octets of the report.
    pub fn as_slice(&self) -> &[u8]
        ensures { result.now ≡ self.now.octets }
    {
        self.octets.as_slice()
    }

    /// The record of the number, from 1.
    pub fn record(&self, network: &Network, number: u64) -> Option<Note>
        requires named { IsNamed network.now }
        requires read { IsRead network.now self.now }
        ensures { (notes : List NoteValue) (end : UnitsValue)
            → IsReportOf network.now self.now.octets notes end → result ≡ note_at notes number }
    {
        if number == 0 {
            return None;
        }
        match self.places.get((number - 1) as usize) {
            Some(place) => {
                let (_, rest) = self.octets.as_slice().split_at(*place);
                let mut records = Records { rest };
                records.next(network)
            }
            None => None,
        }
    }

    /// The records of the report from the first on.
    pub fn records(&self) -> Records<'_>
        ensures { (network : NetworkValue) (notes : List NoteValue) (end : UnitsValue)
            → IsReportOf network self.now.octets notes end → AreLeft network result notes }
    {
        Records {
            rest: self.octets.as_slice(),
        }
    }
}

/// Reads the second file whole, which is at most `limit` octets, and audits it.
pub fn read_report<B: Source>(
    alloc: Global,
    accepted: &Accepted,
    second: &mut B,
    limit: u32,
) -> Result<AuditedReport, NoReport>
    ensures judged { ForOctets (B.left second.old) (λ octets. MatchResult result
        (λ report. (length octets ≤ limit) × (report.octets ≡ octets) × IsSomeReport accepted.now octets)
        (λ cause. IsNoReport limit accepted.now octets cause)) }
    ensures read { IfOk result (IsRead accepted.now) }
    ensures fault { result ≡ Err NoReport.ReadFault → ReadFailed B.Source second.old second.new }
    ensures taken { TakesUpTo limit (B.left second.old) (B.left second.new) }
    // Where the octets were judged, they are all.
    ensures whole { IfJudged result (IsAtEnd (B.left second.new)) }
{
    match read_all(alloc, second, u64::from(limit)) {
        Ok(octets) => audit_octets(alloc, accepted, octets),
        Err(ReadAll::Fault) => Err(NoReport::ReadFault),
        Err(ReadAll::TooLong) => Err(NoReport::TooLong),
        Err(ReadAll::OutOfMemory) => Err(NoReport::OutOfMemory),
    }
}

fn audit_octets(
    alloc: Global,
    accepted: &Accepted,
    octets: Bytes,
) -> Result<AuditedReport, NoReport>
    requires { length octets < 2 ^ 32 }
    ensures judged { (limit : ℕ) → length octets ≤ limit → MatchResult result
        (λ report. (length octets ≤ limit) × (report.octets ≡ octets) × IsSomeReport accepted.now octets)
        (λ cause. IsNoReport limit accepted.now octets cause) }
    ensures read { IfOk result (IsRead accepted.now) }
    ensures fault { result ≢ Err NoReport.ReadFault }
{
    match audit(alloc, accepted, octets.as_slice()) {
        Ok(passed) => match places_of(alloc, octets.as_slice()) {
            Ok(places) => Ok(AuditedReport {
                octets,
                count: passed.count,
                places,
                index: passed.index,
            }),
            Err(_) => Err(NoReport::OutOfMemory),
        },
        Err(AuditRefusal::OutOfMemory) => Err(NoReport::OutOfMemory),
        Err(refusal) => Err(NoReport::Refused(refusal)),
    }
}
