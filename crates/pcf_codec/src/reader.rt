ghost use Rattle.std.specs.Prelude.{◌≡◌, ℕ, ◌<◌, ◌≤◌, ◌+◌, ◌-◌, ◌^◌, ◌++◌, [], List, length, min, take, option_to_list};
ghost use Rattle.tte_units.specs.declared.frames.pcf.Pcf.{Pcf as Frame};
ghost use Rattle.pcf_codec.specs.Reading.{holding, taken_of, fed, Answers, frame_of, emptied, ended, Reads};

use crate::{PCF_LENGTH, PcfRefusal, decode};
use std::marker::Model;
use tte_units::frames::Pcf;

/// Reads the protocol control frames of a stream that comes in pieces of any length.
///
/// Contracts see where it stands: at the octets of an unfinished frame, at a whole frame that waits
/// to be taken, or at a refusal. `Reads` ties that to the stream so far and to the frames given so
/// far: for every cutting they are the frames of the longest front that spells a sequence.
#[derive(Drop)]
pub struct PcfReader {
    octets: [u8; PCF_LENGTH],
    progress: ReadState,
}

#[derive(Clone, Copy)]
enum ReadState {
    // So many octets of an unfinished frame are there.
    Filling(usize),
    Whole(Pcf),
    Refused(PcfRefusal),
}

impl Model for PcfReader {
    ghost use Rattle.std.specs.Prelude.{◌<◌};
    ghost use Rattle.pcf_codec.specs.{Reading.Reading, Spelling.pcf_length};

    ghost Value = { Reading };

    ghost use Rattle.pcf_codec.specs.ReaderView.{reading_in, held_in};

    ghost view = { reading_in };

    ghost invariant = { λ r. held_in r.progress < pcf_length };
}

impl PcfReader {
    /// A reader at the beginning of a stream.
    pub fn new() -> PcfReader
        ensures start { result ≡ holding [] }
        ensures stands { Reads result [] [] }
    {
        PcfReader {
            octets: [0; PCF_LENGTH],
            progress: ReadState::Filling(0),
        }
    }

    /// Takes octets until one frame is whole, and answers how many.
    ///
    /// Before any refusal it takes none exactly where a whole frame waits or the piece is empty. It
    /// refuses exactly where the frame that it completes spells nothing, and from then on. A piece
    /// has fewer than 2^32 octets.
    pub fn feed(&mut self, piece: &[u8]) -> Result<usize, PcfRefusal>
        requires { length piece.now < 2 ^ 32 }
        ensures step { self.new ≡ fed self.old piece.now }
        ensures answer { Answers self.new (length (taken_of self.old piece.now)) result }
        ensures stands { (stream : List ℕ) (given : List Frame) → Reads self.old stream given
            → Reads self.new (stream ++ taken_of self.old piece.now) given }
    {
        let held = match self.progress {
            ReadState::Refused(refusal) => return Err(refusal),
            ReadState::Whole(_) => return Ok(0),
            ReadState::Filling(held) => held,
        };
        let count = fill(&mut self.octets, held, piece);
        if held + count < PCF_LENGTH {
            self.progress = ReadState::Filling(held + count);
            return Ok(count);
        }
        match decode(&self.octets) {
            Ok(frame) => {
                self.progress = ReadState::Whole(frame);
                Ok(count)
            }
            Err(refusal) => {
                self.progress = ReadState::Refused(refusal);
                Err(refusal)
            }
        }
    }

    /// Gives the whole frame that waits. It is None exactly where none does.
    pub fn take(&mut self) -> Option<Pcf>
        ensures frame { result ≡ frame_of self.old }
        ensures step { self.new ≡ emptied self.old }
        ensures stands { (stream : List ℕ) (given : List Frame) → Reads self.old stream given
            → Reads self.new stream (given ++ option_to_list result) }
    {
        match self.progress {
            ReadState::Whole(frame) => {
                self.progress = ReadState::Filling(0);
                Some(frame)
            }
            _ => None,
        }
    }

    /// Judges the end of the stream. It refuses exactly an unfinished frame, by its count of
    /// octets, and what `feed` refused before.
    pub fn finish(&self) -> Result<(), PcfRefusal>
        ensures { result ≡ ended self.now }
    {
        match self.progress {
            ReadState::Refused(refusal) => Err(refusal),
            ReadState::Whole(_) => Ok(()),
            ReadState::Filling(held) => unfinished(&self.octets[..held]),
        }
    }
}

// Judges the octets of a frame at the end of the stream.
fn unfinished(held: &[u8]) -> Result<(), PcfRefusal>
    requires { length held.now < 2 ^ 32 }
    ensures { result ≡ ended (holding held.now) }
{
    if held.is_empty() {
        Ok(())
    } else {
        Err(PcfRefusal::Length(held.len() as u32))
    }
}

// Puts octets of a piece behind those held, as many as there is room for, and answers how many.
fn fill(octets: &mut [u8; PCF_LENGTH], held: usize, piece: &[u8]) -> usize
    requires { held ≤ 60 }
    ensures count { result ≡ min (60 - held) (length piece.now) }
    ensures filled { take (held + result) octets.new ≡ take held octets.old ++ take (60 - held) piece.now }
{
    let count = piece.len().min(PCF_LENGTH - held);
    octets[held..held + count].copy_from_slice(&piece[..count]);
    count
}
