ghost use Rattle.std.specs.{Io.{KnownBytes.ReadConsumes, ReadsAtMost}, Prelude.{length, min, ℕ}};
ghost use Rattle.std.specs.Prelude.{◌+◌, ◌↔◌, ◌≡◌, ◌≤◌, Contains, IfOk, IsErr, IsOk, List, OnErr, OnOk, Some, drop};
ghost use Rattle.tte_io.specs.{Faults.Rose, InMemory.{after_failed_read, after_giving, fresh_source}};
ghost use Rattle.tte_io.specs.Told.{IsZeroExactlyAtEnd};

use crate::memory::Calls;
use crate::{OutOfMemory, Source, SourceFailed};
use std::alloc::Global;
use std::marker::Model;

/// Octets in memory, given in pieces, with calls that fail.
#[derive(Drop)]
pub struct MemorySource {
    octets: Vec<u8>,
    taken: usize,
    piece: u32,
    calls: Calls,
    faults: u64,
}

impl Model for MemorySource {
    ghost use Rattle.std.specs.Prelude.{◌≤◌, length, drop};
    ghost use Rattle.tte_io.specs.InMemory.{SourceState};

    ghost Value = { SourceState };

    ghost view = { λ s. record {
      left = drop s.taken s.octets.items;
      piece = s.piece;
      failing = s.calls.failing.items;
      calls = s.calls.count;
      faults = s.faults;
    } };

    ghost invariant = { λ s. (s.taken ≤ length s.octets.items)
        × (1 ≤ s.piece)
        × (s.faults ≤ s.calls.count) };
}

impl MemorySource {
    /// A source of these octets. A read gives at most `piece` of them, which is at least 1, and
    /// the calls whose numbers, from 1, are in `failing` fail.
    pub fn new(
        alloc: Global,
        octets: &[u8],
        piece: u32,
        failing: &[u32],
    ) -> Result<MemorySource, OutOfMemory>
        requires { 1 ≤ piece }
        ensures { IfOk result (λ s. s ≡ fresh_source octets.now piece failing.now) }
    {
        Ok(MemorySource {
            octets: octets.to_vec(alloc)?,
            taken: 0,
            piece,
            calls: Calls::new(alloc, failing)?,
            faults: 0,
        })
    }
}

impl Source for MemorySource {
    ghost left = { λ s. Some s.left };

    ghost faults = { λ s. s.faults };

    fn read(&mut self, buf: &mut [u8]) -> Result<usize, SourceFailed>
        ensures bound { ReadsAtMost result buf.new }
        ensures octets { ReadConsumes (Some self.old.left) (Some self.new.left) result buf.new }
        ensures end { IfOk result (IsZeroExactlyAtEnd (Some self.old.left) buf.new) }

        ensures never_falls { self.old.faults ≤ self.new.faults }
        ensures ok_unchanged { OnOk result (self.new.faults ≡ self.old.faults) }
        ensures failed_rose { OnErr result (Rose self.old.faults self.new.faults) }

        // Exactly the calls whose numbers are in `failing` fail.
        ensures fails { IsErr result ↔ Contains self.old.failing (self.old.calls + 1) }
        ensures count { IfOk result (λ n.
            n ≡ min (min self.old.piece (length buf.new)) (length self.old.left)) }
        ensures ok { IfOk result (λ n. self.new ≡ after_giving n self.old) }
        ensures err { OnErr result (self.new ≡ after_failed_read self.old) }
    {
        if self.calls.next_fails() {
            self.faults += 1;
            return Err(SourceFailed);
        }
        let (_, left) = self.octets.split_at(self.taken);
        let count = left.len().min(buf.len()).min(self.piece as usize);
        let (front, _) = left.split_at(count);
        buf[..count].copy_from_slice(front);
        self.taken += count;
        Ok(count)
    }
}

/// Octets in memory that no read fails to give.
#[derive(Drop)]
pub struct SteadySource {
    octets: Vec<u8>,
    taken: usize,
}

impl Model for SteadySource {
    ghost use Rattle.std.specs.Prelude.{ℕ, List, ◌≤◌, length, drop};

    ghost Value = { List ℕ };

    ghost view = { λ s. drop s.taken s.octets.items };

    ghost invariant = { λ s. s.taken ≤ length s.octets.items };
}

impl SteadySource {
    /// A source of these octets.
    pub fn new(alloc: Global, octets: &[u8]) -> Result<SteadySource, OutOfMemory>
        ensures { IfOk result (λ s. s ≡ octets.now) }
    {
        Ok(SteadySource {
            octets: octets.to_vec(alloc)?,
            taken: 0,
        })
    }
}

impl Source for SteadySource {
    ghost left = { λ s. Some s };

    ghost faults = { λ _. 0 };

    fn read(&mut self, buf: &mut [u8]) -> Result<usize, SourceFailed>
        ensures bound { ReadsAtMost result buf.new }
        ensures octets { ReadConsumes (Some self.old) (Some self.new) result buf.new }
        ensures end { IfOk result (IsZeroExactlyAtEnd (Some self.old) buf.new) }

        ensures never_fails { IsOk result }
        ensures count { IfOk result (λ n. n ≡ min (length buf.new) (length self.old)) }
        ensures rest { IfOk result (λ n. self.new ≡ drop n self.old) }
    {
        let (_, left) = self.octets.split_at(self.taken);
        let count = left.len().min(buf.len());
        let (front, _) = left.split_at(count);
        buf[..count].copy_from_slice(front);
        self.taken += count;
        Ok(count)
    }
}
