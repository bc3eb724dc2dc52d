ghost use Rattle.std.specs.Prelude.{◌*◌, ◌<◌, ◌^◌, ◌≡◌, ◌≢◌, ◌≤◌, length};
ghost use Rattle.{pcf_codec.specs.Spelling.pcf_length, tte_forms.specs.{Answering.{Answers, Gives}, Putting.Over}};
ghost use Rattle.tte_forms.specs.Taking.{TakesUpTo};
ghost use Rattle.tte_forms.specs.{Faults.{HasCause, PutFailed, ReadFailed}, frames.{Answer.show_answer, Law.ShowsFrames}};
ghost use Rattle.tte_forms.specs.frames.Answer.{IsShowStatus, file_limit, frame_at, frame_count, frames_answer};

mod frame_line;

use crate::Status;
use crate::accepting::LIMIT;
use crate::put_line::{end_with, put_last};
pub use frame_line::{push_frame, push_refusal};
use frame_line::{make_frame_line, make_refusal_line};
use pcf_codec::{PCF_LENGTH, decode};
use std::alloc::Global;
use tte_io::{LineText, ReadAll, Sink, Source, read_all};

/// Shows the protocol control frames of a file, a line for each. The first that spells nothing is
/// refused, and the file is read no further.
///
/// `show_law` says which frames these are.
pub fn show<A: Source, K: Sink>(alloc: Global, source: &mut A, out: &mut K) -> Status
    ensures general { Over K.Sink out.old out.new (Answers show_answer (A.left source.old) result) }
    ensures statuses { IsShowStatus result }
    // Where the source failed, nothing was written.
    ensures faults { HasCause result (ReadFailed A.Source source.old source.new × (out.new ≡ out.old))
        (PutFailed K.Sink out.old out.new) }
    ensures taken { TakesUpTo file_limit (A.left source.old) (A.left source.new) }
{
    match read_all(alloc, source, LIMIT) {
        Ok(octets) => show_frames(octets.as_slice(), out),
        Err(ReadAll::Fault) => Status::ReadFault,
        Err(ReadAll::TooLong) => end_with(Status::TooLong, out),
        Err(ReadAll::OutOfMemory) => Status::OutOfMemory,
    }
}

fn show_frames<K: Sink>(octets: &[u8], out: &mut K) -> Status
    requires { length octets.now ≤ file_limit }
    ensures gives { Over K.Sink out.old out.new (Gives (frames_answer 0 (frame_count octets.now) octets.now) result) }
    ensures statuses { IsShowStatus result }
    ensures read { result ≢ Status.ReadFault }
    ensures write { result ≡ Status.WriteFault → PutFailed K.Sink out.old out.new }
{
    let mut line = LineText::new();
    'frames: for k in 0..octets.len().div_ceil(PCF_LENGTH) {
        match decode(frame_at(octets, k)) {
            Ok(frame) => {
                make_frame_line(&mut line, k as u64 + 1, &frame);
                match out.put(line.as_slice()) {
                    Ok(()) => (),
                    Err(_) => return Status::WriteFault,
                }
            }
            Err(refusal) => {
                make_refusal_line(&mut line, k as u64 + 1, refusal);
                return put_last(line.as_slice(), Status::FrameRefused, out);
            }
        }
    }
    end_with(Status::Done, out)
}

// The octets of the frame behind `k` others, which are fewer than sixty where it is unfinished.
#[tactic(auto, using(std::proofs::lemmas::List::take_min))]
fn frame_at(octets: &[u8], k: usize) -> &[u8]
    requires { k * pcf_length < length octets.now }
    ensures frame { result.now ≡ frame_at k octets.now }
    ensures short { length result.now ≤ pcf_length }
{
    let (_, rest) = octets.split_at(k * PCF_LENGTH);
    let (frame, _) = rest.split_at(PCF_LENGTH.min(rest.len()));
    frame
}

/// What the answer of `show` has to do with the frames that a file spells, as a law.
pub fn show_law()
    ensures { ShowsFrames }
{}
