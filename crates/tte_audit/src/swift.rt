//! The audit of a report that is right, as most are: its events are sought first, without reading the other lines, and
//! then each line is read once. Where anything is wrong there is no answer.

ghost use Rattle.std.specs.Prelude.{◌++◌, ◌<◌, ◌^◌, ◌∷◌, ◌≡◌, IfSome, List, Ok, [], length, ℕ};
ghost use Rattle.{audit_sweep.specs.Sweeping.SweepsSome, run_law.specs.declared.note.Note.{Note as NoteValue}};
ghost use Rattle.tte_audit.specs.{Named.IsNamed, Passing.IsPassed, Swift.{IsBehind, IsGoneOn, IsSought, IsSoughtOn}};

use crate::auditing::{judge, take_event};
use crate::event_lines::EventRecord;
use crate::events::Befallen;
use crate::hints::NameHints;
use crate::lines::{event_record, first_lf, plain_record};
use crate::named::named_network;
use crate::{AuditRefusal, PassedReport};
use audit_sweep::Sweep;
use net_plan::Network;
use run_law::Note;
use run_law::plain::no_record;
use schedule_tables::Accepted;
use std::alloc::Global;

/// What is kept of the report, where it is that of the run under the events that its own records tell.
pub(crate) fn audited(alloc: Global, accepted: &Accepted, report: &[u8]) -> Option<PassedReport>
    requires { length report.now < 2 ^ 32 }
    ensures { IfSome result (IsPassed accepted.now report.now) }
{
    let network = named_network(accepted);
    match seek(alloc, accepted, report) {
        Some(sought) => swept(alloc, network, report, sought),
        None => None,
    }
}

// ---- the events

// The events that were found, and how much of the report was left at the line of each.
#[derive(Drop)]
struct EventSearch<'a> {
    befallen: Befallen<'a>,
    places: Vec<usize>,
}

impl<'a> EventSearch<'a> {
    // None.
    fn new(alloc: Global, accepted: &'a Accepted) -> Option<EventSearch<'a>>
        ensures { (report : List ℕ) → IfSome result (IsSought accepted.now report []) }
    {
        match Befallen::new(alloc, accepted) {
            Ok(befallen) => Some(EventSearch {
                befallen,
                places: Vec::new(alloc),
            }),
            Err(_) => None,
        }
    }

    // Takes the event of the record whose line comes first, where it may come.
    #[inline(never)]
    fn take(&mut self, network: &Network, octets: &[u8], read: &mut EventRecord) -> Option<()>
        requires named { IsNamed network.now }
        requires few { self.old.befallen.count < 2 ^ 63 }
        requires sought { (report : List ℕ) × (notes : List NoteValue) × IsSought network.now report notes self.old }
        ensures { (report front : List ℕ) (notes : List NoteValue) → report ≡ front ++ octets.now
            → IsSought network.now report notes self.old
            → IfSome result (λ _. IsSoughtOn network.now report notes self.new) }
    {
        event_record(network, octets, read)?;
        match self.befallen.admit(read.line, &read.event) {
            Ok(true) => {}
            Ok(false) => return None,
            Err(_) => return None,
        }
        match self.places.push(octets.len()) {
            Ok(()) => {}
            Err(_) => return None,
        }
        Some(())
    }

    // Takes the record whose line comes first, if that seems to be the line of an event.
    fn look(
        &mut self,
        network: &Network,
        octets: &[u8],
        is_event: bool,
        read: &mut EventRecord,
    ) -> Option<()>
        requires named { IsNamed network.now }
        requires few { self.old.befallen.count < 2 ^ 63 }
        requires sought { (report : List ℕ) × (notes : List NoteValue) × IsSought network.now report notes self.old }
        ensures { (report front : List ℕ) (notes : List NoteValue) → report ≡ front ++ octets.now
            → IsSought network.now report notes self.old
            → IfSome result (λ _. IsSoughtOn network.now report notes self.new) }
    {
        if is_event {
            self.take(network, octets, read)
        } else {
            Some(())
        }
    }
}

// Finds the events of the report.
fn seek<'a>(alloc: Global, accepted: &'a Accepted, report: &[u8]) -> Option<EventSearch<'a>>
    requires { length report.now < 2 ^ 32 }
    ensures { IfSome result (λ sought. (notes : List NoteValue) × IsSought accepted.now report.now notes sought) }
{
    let network = named_network(accepted);
    let mut sought = match EventSearch::new(alloc, accepted) {
        Some(sought) => sought,
        None => return None,
    };
    let mut read = EventRecord::none();
    let mut rest = report;
    let mut kind = 0;
    'lines: while !rest.is_empty() {
        let line = match first_line(rest) {
            Some(line) => line,
            None => return None,
        };
        kind = kind_place(line.text, kind);
        let is_event = seems_event(line.text, kind);
        match sought.look(network, rest, is_event, &mut read) {
            Some(()) => rest = line.behind,
            None => return None,
        }
    }
    Some(sought)
}

// A line without its LF, and what is behind it.
#[derive(Clone, Copy)]
struct Line<'r> {
    text: &'r [u8],
    behind: &'r [u8],
}

fn first_line<'r>(octets: &'r [u8]) -> Option<Line<'r>>
    ensures { IfSome result (λ line. IsBehind octets.now line.behind.now) }
{
    let place = match first_lf(octets) {
        Some(place) => place,
        None => return None,
    };
    let (text, rest) = octets.split_at(place);
    let (_, behind) = rest.split_at(1);
    Some(Line { text, behind })
}

// Where the word of the line's kind most likely begins. It is mostly where it began in the line before.
fn kind_place(line: &[u8], before: usize) -> usize {
    if before > 0 && before < line.len() && line[before - 1] == b' ' {
        return before;
    }
    let kind = behind_space(behind_space(line));
    line.len().saturating_sub(kind.len())
}

// What is behind the first space.
fn behind_space(text: &[u8]) -> &[u8] {
    match memchr::memchr(b' ', text) {
        Some(place) => {
            let (_, rest) = text.split_at(place);
            rest.split_at(1).1
        }
        None => text,
    }
}

fn seems_event(line: &[u8], kind: usize) -> bool {
    kind < line.len() && line[kind] == b'e'
}

// ---- the records

// What is left of the report, and the places of the events whose lines are there.
#[derive(Clone, Copy)]
struct Left<'r, 'p> {
    octets: &'r [u8],
    places: &'p [usize],
}

// Takes the record of this number, whose line comes first, and answers what is left.
fn take_line<'r, 'p>(
    sweep: &mut Sweep,
    network: &Network,
    hints: &NameHints,
    number: u64,
    left: Left<'r, 'p>,
    note: &mut Note,
) -> Option<Left<'r, 'p>>
    requires named { IsNamed network.now }
    requires swept { SweepsSome sweep.old }
    requires same { sweep.old.network.now ≡ network.now }
    ensures { IfSome result (IsGoneOn network.now number sweep.old sweep.new left.entry) }
{
    match plain_record(network, hints, number, left.octets) {
        Some(taken) => {
            taken.read.note_in(note);
            with_places(judge(sweep, note, taken.left), left.places)
        }
        None => match behind_place(left.places, left.octets.len()) {
            Some(places) => with_places(take_event(sweep, network, number, left.octets), places),
            None => None,
        },
    }
}

fn with_places<'r, 'p>(
    taken: Result<&'r [u8], AuditRefusal>,
    places: &'p [usize],
) -> Option<Left<'r, 'p>>
    ensures { IfSome result (λ left. (taken.entry ≡ Ok left.octets) × (left.places ≡ places.entry)) }
{
    match taken {
        Ok(octets) => Some(Left { octets, places }),
        Err(_) => None,
    }
}

// The places behind the first, where that is this.
fn behind_place<'p>(places: &'p [usize], place: usize) -> Option<&'p [usize]>
    ensures { IfSome result (λ behind. places.now ≡ place ∷ behind.now) }
{
    if places.is_empty() {
        return None;
    }
    let (first, behind) = places.split_at(1);
    if first[0] == place {
        Some(behind)
    } else {
        None
    }
}

// Sweeps the report, of which the events were found.
fn swept(
    alloc: Global,
    network: &Network,
    report: &[u8],
    sought: EventSearch,
) -> Option<PassedReport>
    requires named { IsNamed network.now }
    requires short { length report.now < 2 ^ 32 }
    requires sought { (notes : List NoteValue) × IsSought network.now report.now notes sought }
    ensures { IfSome result (IsPassed network.now report.now) }
{
    let EventSearch { befallen, places } = sought;
    let end = match befallen.end {
        Some(end) => end,
        None => return None,
    };
    let mut sweep = match Sweep::new(alloc, network, befallen.history, end) {
        Ok(sweep) => sweep,
        Err(_) => return None,
    };
    let hints = NameHints::of(network);
    let mut note = no_record();
    let mut records = 0;
    let mut left = Left {
        octets: report,
        places: places.as_slice(),
    };
    'records: while !left.octets.is_empty() {
        match take_line(&mut sweep, network, &hints, records + 1, left, &mut note) {
            Some(next) => {
                records += 1;
                left = next;
            }
            None => return None,
        }
    }
    if !left.places.is_empty() {
        return None;
    }
    match sweep.first_lack() {
        Some(_) => None,
        None => Some(PassedReport {
            count: records,
            index: sweep.into_index(),
        }),
    }
}
