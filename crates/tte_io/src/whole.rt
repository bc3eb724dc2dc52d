ghost use Rattle.std.specs.Io.KnownBytes.{Consumes, IsAtEnd};
ghost use Rattle.std.specs.Prelude.{◌+◌, ◌<◌, ◌≡◌, ◌≢◌, ◌≤◌, Err, IfOk, IfSome, OnOk, length};
ghost use Rattle.tte_io.specs.{Faults.Rose, Whole.{TakesAtMost, TakesTooMany, excess_limit}};

use crate::Source;
use std::alloc::Global;
use std::marker::Model;

/// A list of octets.
#[derive(Drop)]
pub struct Bytes {
    octets: Vec<u8>,
}

impl Model for Bytes {
    ghost use Rattle.std.specs.Prelude.{ℕ, List};

    ghost Value = { List ℕ };

    ghost view = { λ b. b.octets.items };
}

impl Bytes {
    /// The octets.
    pub fn as_slice(&self) -> &[u8]
        ensures { result.now ≡ self.now }
    {
        &self.octets
    }
}

/// Why a source was not read whole.
#[derive(Clone, Copy, Debug, PartialEq, Eq)]
pub enum ReadAll {
    /// A read failed.
    Fault,
    /// More octets came than the limit.
    TooLong,
    /// Memory ran out.
    OutOfMemory,
}

/// How many octets are read at a time.
const PIECE: usize = 4096;

/// All that is left in the source, which is at most `limit` octets.
///
/// Where memory runs out, what was read is lost, as it is with `Fault` and `TooLong`.
pub fn read_all<S: Source>(alloc: Global, source: &mut S, limit: u64) -> Result<Bytes, ReadAll>
    ensures whole { IfSome (S.left source.old) (λ left. IfOk result (λ octets. octets ≡ left)) }
    ensures within { IfOk result (λ octets. length octets ≤ limit) }
    ensures emptied { OnOk result (IsAtEnd (S.left source.new)) }

    // More than `limit` octets came, and so more were left.
    ensures too_long { result ≡ Err ReadAll.TooLong
        → TakesTooMany (S.left source.old) (S.left source.new) limit }
    ensures too_long_left { result ≡ Err ReadAll.TooLong
        → IfSome (S.left source.old) (λ left. limit < length left) }
    ensures taken { TakesAtMost (S.left source.old) (S.left source.new) (limit + excess_limit) }

    ensures fault { result ≡ Err ReadAll.Fault → Rose (S.faults source.old) (S.faults source.new) }
    ensures no_fault { result ≢ Err ReadAll.Fault → S.faults source.new ≡ S.faults source.old }
    ensures never_falls { S.faults source.old ≤ S.faults source.new }
{
    let mut octets = Vec::new(alloc);
    let mut piece = [0; PIECE];
    'pieces: loop {
        let count = match source.read(&mut piece) {
            Ok(0) => return Ok(Bytes { octets }),
            Ok(count) => count,
            Err(_) => return Err(ReadAll::Fault),
        };
        if count as u64 > limit - octets.len() as u64 {
            return Err(ReadAll::TooLong);
        }
        if octets.extend_from_slice(&piece[..count]).is_err() {
            return Err(ReadAll::OutOfMemory);
        }
    }
}
