//! When the frames that the records of a report deliver left their senders.

ghost use Rattle.std.specs.{List.cons_option, Prelude.{◌++◌, ◌∷◌, ◌≡◌, OnOk, []}};
ghost use Rattle.lens_latency.specs.Following.{IsFollowed, arrival_by, departure_at, departure_by, is_departure};
ghost use Rattle.tte_units.specs.Amount.{amount};

use net_plan::{DeviceId, Network, VlId};
use run_law::{Note, NoteBody, cause_of};
use tte_io::OutOfMemory;
use tte_reports::RecordTaker;

/// A frame that came to a receiver from its virtual link's sender.
#[derive(Clone, Copy)]
pub struct FrameArrival {
    pub vl: VlId,
    pub device: DeviceId,
    /// How long it was on its way, in units of 2^-16 ns of world time.
    pub time: u64,
}

/// What the records so far tell of frames on their way.
#[derive(Drop)]
pub struct Followed {
    /// For each record the world time at which the frame that it is of left its sender, if it did.
    pub departures: Vec<Option<u64>>,
    pub arrivals: Vec<FrameArrival>,
}

impl RecordTaker for Followed {
    ghost holds = { λ network notes before begun followed. IsFollowed network notes before followed.departures.items
        followed.arrivals.items };

    fn take(&mut self, _network: &Network, note: &Note) -> Result<(), OutOfMemory> {
        let departure = departure_by(self.departures.as_slice(), note);
        push_departure(&mut self.departures, departure)?;
        push_some(&mut self.arrivals, arrival_by(departure, note))?;
        Ok(())
    }
}

/// Does a frame leave its sender by the record?
fn is_departure(body: &NoteBody) -> bool
    ensures { result ≡ is_departure body.now }
{
    matches!(body, NoteBody::TtSent { cause: 0, .. })
}

/// What is kept for the record of this number; 0 is the number of none.
fn departure_at(departures: &[Option<u64>], number: u64) -> Option<u64>
    ensures { result ≡ departure_at departures.now number }
{
    if number == 0 {
        return None;
    }
    *departures.get((number - 1) as usize)?
}

/// When the frame of the record left its sender, by what is kept for the records before it.
fn departure_by(departures: &[Option<u64>], note: &Note) -> Option<u64>
    ensures { result ≡ departure_by departures.now (amount note.now.time) note.now.body }
{
    if is_departure(&note.body) {
        Some(note.time.0.unsigned_abs())
    } else {
        departure_at(departures, cause_of(&note.body))
    }
}

/// The frame that the record delivers, if it left its sender at a time that is known.
fn arrival_by(departure: Option<u64>, note: &Note) -> Option<FrameArrival>
    ensures { result ≡ arrival_by departure (amount note.now.time) note.now.body }
{
    match &note.body {
        NoteBody::Delivered { device, vl, .. } => {
            let left = departure?;
            Some(FrameArrival {
                vl: *vl,
                device: *device,
                time: note.time.0.unsigned_abs().saturating_sub(left),
            })
        }
        NoteBody::Event { .. }
        | NoteBody::Arrived { .. }
        | NoteBody::Permanent { .. }
        | NoteBody::Compressed { .. }
        | NoteBody::Sent { .. }
        | NoteBody::Corrected { .. }
        | NoteBody::State { .. }
        | NoteBody::Left { .. }
        | NoteBody::Lost { .. }
        | NoteBody::TtSent { .. }
        | NoteBody::Accepted { .. }
        | NoteBody::Dropped { .. }
        | NoteBody::Clock { .. } => None,
    }
}

/// Keeps what is known of the next record.
fn push_departure(
    departures: &mut Vec<Option<u64>>,
    departure: Option<u64>,
) -> Result<(), OutOfMemory>
    ensures { OnOk result (departures.new.items ≡ departures.old.items ++ departure ∷ []) }
{
    match departures.push(departure) {
        Ok(()) => Ok(()),
        Err(_) => Err(OutOfMemory),
    }
}

/// Adds the arrival, if there is one.
fn push_some(
    arrivals: &mut Vec<FrameArrival>,
    arrival: Option<FrameArrival>,
) -> Result<(), OutOfMemory>
    ensures { OnOk result (arrivals.new.items ≡ arrivals.old.items ++ cons_option arrival []) }
{
    let Some(arrival) = arrival else {
        return Ok(());
    };
    match arrivals.push(arrival) {
        Ok(()) => Ok(()),
        Err(_) => Err(OutOfMemory),
    }
}
