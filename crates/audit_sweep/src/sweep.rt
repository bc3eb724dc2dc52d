//! The records of a report, taken one after the other, as long as each is sound given those before it.

ghost use Rattle.std.specs.{Option.option_map_or, Prelude.{MatchOption, OnOk, [], length, pos, ℕ}};
ghost use Rattle.std.specs.Prelude.{◌++◌, ◌+◌, ◌^◌, ◌↔◌, ◌∷◌, ◌≡◌, ◌≤ℤ◌, ◌≤◌, IfOk, IfSome, IsTrue, List, MatchBool};
ghost use Rattle.{audit_law.specs.events.Remembering.Remembers, audit_sweep.specs.unpaid.Payments.ArePayments};
ghost use Rattle.{audit_sweep.specs.Judging.{Befalls, IsJudgeable}, run_law.specs.records.Ranks.{place_at, place_of}};
ghost use Rattle.audit_sweep.specs.Sweeping.{IsPlacedSoundly, IsSoundUpTo, IsSwept, SweepsSome};
ghost use Rattle.audit_sweep.specs.Indexing.{IsIndex};
ghost use Rattle.{audit_sweep.specs.records.Keeping.records_of, run_law.specs.runs.DueRecords.EndsAt};
ghost use Rattle.{net_plan.specs.Ranges.IsInRange, tte_units.specs.Amount.amount};
ghost use Rattle.net_plan.specs.declared.{event.Event.Event, network.Network.{Network as NetworkValue}};
ghost use Rattle.{report_text.specs.Ranges.IsBodyOf, tte_units.specs.declared.units.Units.{Units as UnitsValue}};
ghost use Rattle.run_law.specs.records.Happenings.{Happening, frame_by, frame_from, happening};

use crate::index::Index;
use crate::judging::is_due;
use crate::known::Known;
use crate::records::OutOfMemory;
use crate::records::places::Places;
use crate::unpaid::Payments;
use audit_law::events::EventHistory;
use net_plan::Network;
use run_law::plain::Place;
use run_law::{Note, NoteBody};
use std::alloc::Global;
use tte_units::Units;
use tte_units::frames::Pcf;

/// The records of a report, as far as they have come: each is sound given those before it.
#[derive(Drop)]
pub struct Sweep<'a> {
    pub(crate) alloc: Global,
    pub(crate) network: &'a Network,
    pub(crate) known: Known,
    pub(crate) places: Places,
    pub(crate) payments: Payments,
}

impl<'a> Sweep<'a> {
    /// No records, under the events of which this is the history, which end at the time.
    ///
    /// Fails when memory runs out.
    pub fn new(
        alloc: Global,
        network: &'a Network,
        events: EventHistory,
        end: Units,
    ) -> Result<Sweep<'a>, OutOfMemory>
        requires range { IsInRange network.now }
        requires timely { amount end ≤ 2 ^ 60 }
        ensures { IfOk result (λ sweep. (befallen : List Event) → Remembers network.now befallen events
            → ((time : UnitsValue) → (time ≡ end) ↔ EndsAt befallen time)
            → IsSwept network.now befallen end [] sweep) }
    {
        let known = match Known::new(alloc, network, events, end) {
            Ok(known) => known,
            Err(_) => return Err(OutOfMemory),
        };
        Ok(Sweep {
            alloc,
            network,
            known,
            places: Places::new(alloc),
            payments: Payments::new(alloc),
        })
    }

    /// Takes the next record, where it is sound given those before it. Where it is not, or memory runs out, the sweep
    /// is over.
    ///
    /// Fails when memory runs out.
    pub fn take(&mut self, note: &Note) -> Result<bool, OutOfMemory>
        requires swept { SweepsSome self.old }
        requires named { IsBodyOf self.old.network.now note.now.body }
        ensures { (network : NetworkValue) (befallen : List Event) (end : UnitsValue) (hs : List Happening)
            → IsSwept network befallen end hs self.old → Befalls befallen note.now.time note.now.body
            → IfOk result (λ sound. MatchBool sound
            (IsSwept network befallen end (hs ++ happening network hs note.now ∷ []) self.new)
            (IsSoundUpTo network befallen end hs note.now → ⊥)) }
    {
        let place = match self.sound_place(note) {
            Some(place) => place,
            None => return Ok(false),
        };
        match self.push(note, place) {
            Ok(()) => Ok(true),
            Err(_) => Err(OutOfMemory),
        }
    }

    /// Ends the sweep, and keeps what the records that were taken show.
    pub fn into_index(self) -> Index
        ensures { (network : NetworkValue) (befallen : List Event) (end : UnitsValue) (hs : List Happening)
            → IsSwept network befallen end hs self.entry → IsIndex network befallen hs result }
    {
        let Known {
            events,
            end,
            records,
            standings,
            ..
        } = self.known;
        Index {
            events,
            end,
            records,
            standings,
        }
    }

    // The place of the record, if it is sound given those before it.
    fn sound_place(&self, note: &Note) -> Option<Place>
        requires swept { SweepsSome self.now }
        requires named { IsBodyOf self.now.network.now note.now.body }
        ensures judgeable { IfSome result
            (λ place. IsJudgeable self.now.network.now note.now.time note.now.body) }
        ensures sound { (befallen : List Event) (end : UnitsValue) (hs : List Happening)
            → IsSwept self.now.network.now befallen end hs self.now → Befalls befallen note.now.time note.now.body
            → MatchOption result (IsSoundUpTo self.now.network.now befallen end hs note.now → ⊥)
            (IsPlacedSoundly self.now.network.now befallen end hs note.now) }
    {
        if !self.is_next(note.number) {
            return None;
        }
        if !self.is_timely(note.time) {
            return None;
        }
        let place = self.place_of(note);
        if !self.places.are_before(&place) {
            return None;
        }
        if is_due(&self.known, self.network, note) {
            Some(place)
        } else {
            None
        }
    }
    // Goes on by the record, which is sound given those before it and stands at the place.
    fn push(&mut self, note: &Note, place: Place) -> Result<(), OutOfMemory>
        requires swept { SweepsSome self.old }
        requires judgeable { IsJudgeable self.old.network.now note.now.time note.now.body }
        ensures { (befallen : List Event) (end : UnitsValue) (hs : List Happening)
            → IsSwept self.old.network.now befallen end hs self.old
            → IsPlacedSoundly self.old.network.now befallen end hs note.now place
            → OnOk result (IsSwept self.old.network.now befallen end
            (hs ++ happening self.old.network.now hs note.now ∷ []) self.new) }
    {
        self.known.push(self.alloc, self.network, note)?;
        self.payments.push(&note.body)?;
        self.places.push(note.time.amount(), place)?;
        Ok(())
    }

    // Is this the number of the next record?
    fn is_next(&self, number: u64) -> bool
        ensures { (hs : List Happening) → ArePayments hs self.now.payments → IsTrue result ↔ (number ≡ length hs + 1) }
    {
        number != 0 && number - 1 == self.payments.count() as u64
    }

    // Is the time from 0 up to the end?
    fn is_timely(&self, time: Units) -> bool
        ensures { IsTrue result ↔ ((pos 0 ≤ℤ time.0) × (amount time ≤ amount self.now.known.end)) }
    {
        0 <= time.0 && time.0.unsigned_abs() <= self.known.end.0.unsigned_abs()
    }

    // Where the record stands in the order of the report.
    fn place_of(&self, note: &Note) -> Place
        requires range { IsInRange self.now.network.now }
        requires begun { pos 0 ≤ℤ note.now.time.0 }
        ensures { (hs : List Happening) → self.now.known.records ≡ records_of hs
            → result ≡ place_of (happening self.now.network.now hs note.now) }
    {
        let time = note.time.amount();
        Place::of(time, self.members_of(&note.body), &note.body)
    }

    // The members by which a record that says this has its place: those of the frame of a permanence.
    fn members_of(&self, body: &NoteBody) -> u32
        ensures { (hs : List Happening) (time : ℕ) → self.now.known.records ≡ records_of hs
            → place_at time result body.now ≡ place_at time
            (option_map_or (λ frame. frame.members.0) (frame_by self.now.network.now hs body.now) 0) body.now }
    {
        match body {
            NoteBody::Permanent { cause, .. } => self.members_from(*cause),
            NoteBody::Event { .. }
            | NoteBody::Arrived { .. }
            | NoteBody::Compressed { .. }
            | NoteBody::Sent { .. }
            | NoteBody::Corrected { .. }
            | NoteBody::State { .. }
            | NoteBody::Left { .. }
            | NoteBody::Lost { .. }
            | NoteBody::TtSent { .. }
            | NoteBody::Accepted { .. }
            | NoteBody::Delivered { .. }
            | NoteBody::Dropped { .. }
            | NoteBody::Clock { .. } => 0,
        }
    }

    // The members of the frame of the record of this number, or 0.
    fn members_from(&self, number: u64) -> u32
        ensures { (hs : List Happening) → self.now.known.records ≡ records_of hs
            → result ≡ option_map_or (λ frame. frame.members.0) (frame_from hs number) 0 }
    {
        match self.known.records.get(number) {
            Some(kept) => members_in(&kept.frame),
            None => 0,
        }
    }
}

/// The members of the frame, or 0.
fn members_in(frame: &Option<Pcf>) -> u32
    ensures { result ≡ option_map_or (λ frame. frame.members.0) frame.now 0 }
{
    match frame {
        Some(frame) => frame.members.0,
        None => 0,
    }
}
