//! What is kept of a further record, given what is kept of those before it.

ghost use Rattle.std.specs.{List.All, Prelude.{if◌then◌else◌, ◌<◌, ◌==◌, ◌^◌, ◌≡◌, ◌≤◌, IfOk, List, length, map, option_map, ℕ}};
ghost use Rattle.net_plan.specs.{Ranges.IsInRange, declared.network.Network.Network as NetworkValue};
ghost use Rattle.pcf_codec.specs.Decoding.{decoded};
ghost use Rattle.run_law.specs.{declared.note.NoteBody.TheVariants.Event, records.Frames.tt_frame};
ghost use Rattle.run_law.specs.records.Happenings.{Happening, frame_from, frame_in, octets_from, with_clock};
ghost use Rattle.device_rules.specs.frames.traced.Keeping.{Grows, IsHeld, IsPieceOf, at_number, came, control};
ghost use Rattle.device_rules.specs.frames.traced.Keeping.{kept_frame, kept_octets, piece_in, silent, traced};
ghost use Rattle.device_rules.specs.frames.traced.Keeping.{traced_by, view_of, views_of};

use crate::frames::traced::OutOfMemory;
use crate::frames::traced::kept::{KeptFrame, SentPiece};
use crate::frames::{dispatched_frame, integration_frame};
use net_plan::{Network, VlId, What};
use pcf_codec::decode;
use run_law::NoteBody;
use tte_units::frames::Pcf;

/// No octets.
const NO_OCTETS: SentPiece = SentPiece { from: 0, len: 0 };

/// What is kept of the record of this number, from 1. It is None exactly where there is none.
pub(crate) fn kept_at(records: &[KeptFrame], number: u64) -> Option<KeptFrame>
    ensures { result ≡ at_number records.now number }
{
    if number == 0 {
        return None;
    }
    match records.get((number - 1) as usize) {
        Some(found) => Some(*found),
        None => None,
    }
}

/// The octets that stand there.
pub(crate) fn piece_in(pool: &[u8], piece: SentPiece) -> &[u8]
    requires { IsPieceOf pool.now piece }
    ensures { result.now ≡ piece_in pool.now piece }
{
    &pool[piece.from..piece.from + piece.len]
}

/// The control frame that octets spell, if they do.
pub fn frame_in(octets: &[u8]) -> Option<Pcf>
    requires { length octets.now < 2 ^ 32 }
    ensures { result ≡ frame_in (decoded octets.now) }
{
    match decode(octets) {
        Ok(frame) => Some(frame),
        Err(_) => None,
    }
}

/// The control frame that is kept.
fn frame_of(pool: &[u8], kept: KeptFrame) -> Option<Pcf>
    requires { IsHeld pool.now kept }
    ensures { result ≡ kept_frame pool.now kept }
{
    match kept {
        KeptFrame::Control(frame) | KeptFrame::Silent(frame) => Some(frame),
        KeptFrame::Send(piece) => frame_in(piece_in(pool, piece)),
        KeptFrame::Nothing | KeptFrame::Made(_, _) | KeptFrame::Came(_) => None,
    }
}

/// The control frame of the record of this number.
fn frame_from(pool: &[u8], records: &[KeptFrame], number: u64) -> Option<Pcf>
    requires { All (IsHeld pool.now) records.now }
    ensures { (network : NetworkValue) (hs : List Happening) → views_of network pool.now records.now ≡ map traced hs
        → result ≡ frame_from hs number }
{
    match kept_at(records, number) {
        Some(kept) => frame_of(pool, kept),
        None => None,
    }
}

/// What a record keeps whose cause this is kept of: the same octets.
fn handed_on(kept: KeptFrame) -> KeptFrame
    ensures held { (pool : List ℕ) → IsHeld pool kept → IsHeld pool result }
    ensures view { (network : NetworkValue) (pool : List ℕ)
        → view_of network pool result ≡ came (kept_octets network pool kept) }
{
    match kept {
        KeptFrame::Made(vl, cycle) => KeptFrame::Made(vl, cycle),
        KeptFrame::Send(piece) | KeptFrame::Came(piece) => KeptFrame::Came(piece),
        KeptFrame::Nothing | KeptFrame::Control(_) | KeptFrame::Silent(_) => KeptFrame::Came(
            NO_OCTETS,
        ),
    }
}

/// What a record keeps whose cause has this number: the same octets.
fn came_from(records: &[KeptFrame], number: u64) -> KeptFrame
    ensures held { (pool : List ℕ) → All (IsHeld pool) records.now → IsHeld pool result }
    ensures view { (network : NetworkValue) (pool : List ℕ) (hs : List Happening)
        → views_of network pool records.now ≡ map traced hs
        → view_of network pool result ≡ came (octets_from hs number) }
{
    match kept_at(records, number) {
        Some(kept) => handed_on(kept),
        None => KeptFrame::Came(NO_OCTETS),
    }
}

/// A control frame that the record shows, if there is one.
fn control(frame: Option<Pcf>) -> KeptFrame
    ensures held { (pool : List ℕ) → IsHeld pool result }
    ensures view { (network : NetworkValue) (pool : List ℕ) → view_of network pool result ≡ control frame }
{
    match frame {
        Some(frame) => KeptFrame::Control(frame),
        None => KeptFrame::Nothing,
    }
}

/// A control frame that the record does not show, if there is one.
fn silent(frame: Option<Pcf>) -> KeptFrame
    ensures held { (pool : List ℕ) → IsHeld pool result }
    ensures view { (network : NetworkValue) (pool : List ℕ) → view_of network pool result ≡ silent frame }
{
    match frame {
        Some(frame) => KeptFrame::Silent(frame),
        None => KeptFrame::Nothing,
    }
}

/// The frame with this transparent clock.
fn with_clock(clock: u64, frame: Option<Pcf>) -> Option<Pcf>
    ensures { result ≡ option_map (with_clock clock) frame }
{
    match frame {
        Some(frame) => Some(Pcf { clock, ..frame }),
        None => None,
    }
}

/// A control frame that the record shows with its own transparent clock: that of the record of this number.
fn reclocked(pool: &[u8], records: &[KeptFrame], number: u64, clock: u64) -> KeptFrame
    requires { All (IsHeld pool.now) records.now }
    ensures held { IsHeld pool.now result }
    ensures view { (network : NetworkValue) (hs : List Happening)
        → views_of network pool.now records.now ≡ map traced hs
        → view_of network pool.now result ≡ control (option_map (with_clock clock) (frame_from hs number)) }
{
    control(with_clock(clock, frame_from(pool, records, number)))
}

/// The frame of a dispatch: its sender makes it, or it is that of the cause.
fn dispatched(records: &[KeptFrame], cause: u64, vl: VlId, cycle: u32) -> KeptFrame
    ensures held { (pool : List ℕ) → All (IsHeld pool) records.now → IsHeld pool result }
    ensures view { (network : NetworkValue) (pool : List ℕ) (hs : List Happening)
        → views_of network pool records.now ≡ map traced hs → view_of network pool result
        ≡ came (if cause == 0 then tt_frame network vl cycle else octets_from hs cause) }
{
    if cause == 0 {
        KeptFrame::Made(vl, cycle)
    } else {
        came_from(records, cause)
    }
}

/// Puts octets behind those of the other `send` events, and answers where they stand.
fn store(pool: &mut Vec<u8>, octets: &[u8]) -> Result<SentPiece, OutOfMemory>
    requires { length octets.now ≤ 1514 }
    ensures grows { Grows pool.old.items pool.new.items }
    ensures there { IfOk result (IsPieceOf pool.new.items) }
    ensures octets { IfOk result (λ piece. piece_in pool.new.items piece ≡ octets.now) }
{
    let from = pool.len();
    match pool.extend_from_slice(octets) {
        Ok(()) => Ok(SentPiece {
            from,
            len: octets.len(),
        }),
        Err(_) => Err(OutOfMemory),
    }
}

/// What is kept of an event.
fn kept_event(pool: &mut Vec<u8>, what: &What) -> Result<KeptFrame, OutOfMemory>
    ensures grows { Grows pool.old.items pool.new.items }
    ensures held { IfOk result (IsHeld pool.new.items) }
    ensures view { (network : NetworkValue) (hs : List Happening) (line : ℕ)
        → IfOk result (λ k. view_of network pool.new.items k ≡ traced_by network hs (Event line what.now)) }
{
    match what {
        What::Send(_, octets) => match store(pool, octets.as_slice()) {
            Ok(piece) => Ok(KeptFrame::Send(piece)),
            Err(error) => Err(error),
        },
        What::Rate(_, _)
        | What::Wire(_, _, _)
        | What::Hold(_, _, _)
        | What::Cut(_, _)
        | What::Heal(_, _)
        | What::On(_)
        | What::Break(_)
        | What::End => Ok(KeptFrame::Nothing),
    }
}

/// What is kept of a further record with this body.
#[tactic(auto, using(crate::proofs::frames_lemmas::traced_lemmas::Keeping::grows_same))]
pub(crate) fn kept_of(
    network: &Network,
    pool: &mut Vec<u8>,
    records: &[KeptFrame],
    body: &NoteBody,
) -> Result<KeptFrame, OutOfMemory>
    requires range { IsInRange network.now }
    requires held { All (IsHeld pool.old.items) records.now }
    ensures grows { Grows pool.old.items pool.new.items }
    ensures held { IfOk result (IsHeld pool.new.items) }
    ensures view { (hs : List Happening) → views_of network.now pool.old.items records.now ≡ map traced hs
        → IfOk result (λ k. view_of network.now pool.new.items k ≡ traced_by network.now hs body.now) }
{
    match body {
        NoteBody::Event { what, .. } => kept_event(pool, what),
        NoteBody::Sent { device, cycle } => {
            Ok(KeptFrame::Control(dispatched_frame(network, *device, *cycle)))
        }
        NoteBody::Compressed {
            device,
            cycle,
            members,
            ..
        } => Ok(KeptFrame::Control(integration_frame(network, *device, *cycle, *members))),
        NoteBody::Left { cause, clock, .. } => Ok(reclocked(pool, records, *cause, *clock)),
        NoteBody::Arrived { cause, clock, .. } => Ok(reclocked(pool, records, *cause, *clock)),
        NoteBody::Permanent { cause, .. } => Ok(silent(frame_from(pool, records, *cause))),
        NoteBody::TtSent {
            cause,
            vl,
            cycle,
            ..
        } => Ok(dispatched(records, *cause, *vl, *cycle)),
        NoteBody::Accepted { cause, .. } => Ok(came_from(records, *cause)),
        NoteBody::Delivered { cause, .. } => Ok(came_from(records, *cause)),
        NoteBody::Corrected { .. }
        | NoteBody::State { .. }
        | NoteBody::Lost { .. }
        | NoteBody::Dropped { .. }
        | NoteBody::Clock { .. } => Ok(KeptFrame::Nothing),
    }
}
