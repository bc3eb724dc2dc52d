ghost use Rattle.std.specs.Prelude.{if◌then◌else◌, ◌++◌, ◌==◌, ◌∷◌, ◌≡◌, List, MatchOption, MatchResult, None, Some};
ghost use Rattle.std.specs.Prelude.{[], option_map, ℕ};
ghost use Rattle.{audit_sweep.specs.records.Keeping.{record_of, records_of}, run_law.specs.declared.note.Note.Note};
ghost use Rattle.{device_rules.specs.Headings.heading_of, run_law.specs.records.Happenings.{octets_from, with_clock}};
ghost use Rattle.{net_plan.specs.Ranges.IsInRange, run_law.specs.records.Frames.tt_frame};
ghost use Rattle.run_law.specs.records.Happenings.{Happening, frame_by, frame_from, happening, numbered, octets_by};
ghost use Rattle.tte_units.specs.Amount.{amount};

use crate::records::{KeptRecord, OutOfMemory, making};
use device_rules::Heading;
use device_rules::frames::traced::frame_in;
use device_rules::frames::{dispatched_frame, integration_frame};
use net_plan::{Network, VlId, What};
use run_law::NoteBody;
use std::alloc::Global;
use std::marker::Model;
use tte_units::frames::Pcf;

/// The heading of no octets.
const NO_OCTETS: Heading = Heading {
    length: 0,
    marker: 0,
    id: 0,
    ethertype: 0,
};

/// What is kept of the records so far, by their numbers.
#[derive(Drop)]
pub struct KeptRecords {
    records: Vec<KeptRecord>,
}

impl Model for KeptRecords {
    ghost use Rattle.std.specs.Prelude.{List};
    ghost use Rattle.audit_sweep.specs.declared.records.kept.KeptRecord.{KeptRecord};

    ghost Value = { List KeptRecord };

    ghost view = { λ r. r.records.items };
}

impl KeptRecords {
    /// No records.
    pub fn new(alloc: Global) -> KeptRecords
        ensures { result ≡ [] }
    {
        KeptRecords {
            records: Vec::new(alloc),
        }
    }

    /// What is kept of the record of this number, from 1. It is None exactly where there is none.
    pub fn get(&self, number: u64) -> Option<&KeptRecord>
        ensures { (hs : List Happening) → self.now ≡ records_of hs
            → MatchOption result (numbered hs number ≡ None)
            (λ r. (h : Happening) × (numbered hs number ≡ Some h) × (r.now ≡ record_of h)) }
    {
        if number == 0 {
            return None;
        }
        match self.records.get((number - 1) as usize) {
            Some(found) => Some(found),
            None => None,
        }
    }

    /// What is kept of each record, in their order.
    pub fn as_slice(&self) -> &[KeptRecord]
        ensures { result.now ≡ self.now }
    {
        self.records.as_slice()
    }

    /// What is to be kept of a further record of this time and body.
    pub fn make(&self, network: &Network, time: u64, body: &NoteBody) -> KeptRecord
        requires { IsInRange network.now }
        ensures { (hs : List Happening) (note : Note) → self.now ≡ records_of hs → note.body ≡ body.now
            → amount note.time ≡ time → result ≡ record_of (happening network.now hs note) }
    {
        KeptRecord {
            time,
            kept: making::kept_of(body),
            frame: self.frame_by(network, body),
            heading: self.heading_by(network, body),
        }
    }

    /// Keeps a further record. Where memory runs out the records are as they were.
    pub fn push(&mut self, kept: KeptRecord) -> Result<(), OutOfMemory>
        ensures { MatchResult result
            (λ _. self.new ≡ self.old ++ kept ∷ [])
            (λ _. self.new ≡ self.old) }
    {
        // The checker has to meet the type of the frame here.
        let frame = kept.frame;
        match self.records.push(KeptRecord { frame, ..kept }) {
            Ok(()) => Ok(()),
            Err(_) => Err(OutOfMemory),
        }
    }

    /// The protocol control frame of a further record.
    fn frame_by(&self, network: &Network, body: &NoteBody) -> Option<Pcf>
        requires { IsInRange network.now }
        ensures { (hs : List Happening) → self.now ≡ records_of hs → result ≡ frame_by network.now hs body.now }
    {
        match body {
            NoteBody::Event {
                what: What::Send(_, octets),
                ..
            } => frame_in(octets.as_slice()),
            NoteBody::Sent { device, cycle } => { Some(dispatched_frame(network, *device, *cycle)) }
            NoteBody::Compressed {
                device,
                cycle,
                members,
                ..
            } => Some(integration_frame(network, *device, *cycle, *members)),
            NoteBody::Left { cause, clock, .. } | NoteBody::Arrived { cause, clock, .. } => {
                with_clock(*clock, self.frame_from(*cause))
            }
            NoteBody::Permanent { cause, .. } => self.frame_from(*cause),
            NoteBody::Event { .. }
            | NoteBody::Corrected { .. }
            | NoteBody::State { .. }
            | NoteBody::Lost { .. }
            | NoteBody::TtSent { .. }
            | NoteBody::Accepted { .. }
            | NoteBody::Delivered { .. }
            | NoteBody::Dropped { .. }
            | NoteBody::Clock { .. } => None,
        }
    }

    /// The heading of the octets of a further record.
    fn heading_by(&self, network: &Network, body: &NoteBody) -> Heading
        requires { IsInRange network.now }
        ensures { (hs : List Happening) → self.now ≡ records_of hs
            → result ≡ heading_of (octets_by network.now hs body.now) }
    {
        match body {
            NoteBody::Event {
                what: What::Send(_, octets),
                ..
            } => making::heading_of(octets),
            NoteBody::TtSent { cause, vl, .. } => self.heading_of_dispatch(network, *cause, *vl),
            NoteBody::Accepted { cause, .. } | NoteBody::Delivered { cause, .. } => {
                self.heading_from(*cause)
            }
            NoteBody::Event { .. }
            | NoteBody::Arrived { .. }
            | NoteBody::Permanent { .. }
            | NoteBody::Compressed { .. }
            | NoteBody::Sent { .. }
            | NoteBody::Corrected { .. }
            | NoteBody::State { .. }
            | NoteBody::Left { .. }
            | NoteBody::Lost { .. }
            | NoteBody::Dropped { .. }
            | NoteBody::Clock { .. } => NO_OCTETS,
        }
    }

    /// The heading of a time-triggered frame that is dispatched: its sender makes it, or it is that of the cause.
    fn heading_of_dispatch(&self, network: &Network, cause: u64, vl: VlId) -> Heading
        requires { IsInRange network.now }
        ensures { (hs : List Happening) (cycle : ℕ) → self.now ≡ records_of hs → result
            ≡ heading_of (if cause == 0 then tt_frame network.now vl cycle else octets_from hs cause) }
    {
        if cause == 0 {
            heading_made(network, vl)
        } else {
            self.heading_from(cause)
        }
    }

    /// The frame of the record of this number.
    fn frame_from(&self, number: u64) -> Option<Pcf>
        ensures { (hs : List Happening) → self.now ≡ records_of hs → result ≡ frame_from hs number }
    {
        match self.get(number) {
            Some(record) => record.frame,
            None => None,
        }
    }

    /// The heading of the record of this number.
    fn heading_from(&self, number: u64) -> Heading
        ensures { (hs : List Happening) → self.now ≡ records_of hs → result ≡ heading_of (octets_from hs number) }
    {
        match self.get(number) {
            Some(record) => record.heading,
            None => NO_OCTETS,
        }
    }
}

/// The heading of the frames of the virtual link that its sender makes.
fn heading_made(network: &Network, vl: VlId) -> Heading
    requires { IsInRange network.now }
    ensures { (cycle : ℕ) → result ≡ heading_of (tt_frame network.now vl cycle) }
{
    if (vl.0 as usize) < network.vl.as_slice().len() {
        Heading::made(network, vl)
    } else {
        NO_OCTETS
    }
}

/// The frame with this transparent clock.
fn with_clock(clock: u64, frame: Option<Pcf>) -> Option<Pcf>
    ensures { result ≡ option_map (with_clock clock) frame }
{
    match frame {
        Some(frame) => Some(Pcf { clock, ..frame }),
        None => None,
    }
}
