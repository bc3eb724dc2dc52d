ghost use Rattle.std.specs.Prelude.{◌≡◌, ◌<◌, ◌≤◌, ◌+◌, ◌↔◌, ◌⊎◌, [], length, IsErr, IfOk, OnOk, OnErr, Contains, Some};
ghost use Rattle.std.specs.Io.KnownBytes.{Appends};
ghost use Rattle.tte_io.specs.{Faults.{Rose, next_count}, Told.{AppendsFront, PassesSome}};
ghost use Rattle.tte_io.specs.InMemory.{after_failed_pass, after_failed_put, after_passing, after_writing, fresh_sink};

use crate::memory::Calls;
use crate::{OutOfMemory, Sink, SinkFailed};
use std::alloc::Global;
use std::marker::Model;

/// A list of octets in memory, with room for so many, and with calls that fail. It holds what is put
/// until it is to pass it on.
#[derive(Drop)]
pub struct MemorySink {
    written: Vec<u8>,
    /// How many of them were passed on.
    passed: usize,
    room: u64,
    calls: Calls,
    passes: Calls,
    faults: u64,
}

impl Model for MemorySink {
    ghost use Rattle.std.specs.Prelude.{◌≤◌, length, take, vec_len, vec_capacity};
    ghost use Rattle.tte_io.specs.InMemory.{SinkState};

    ghost Value = { SinkState };

    ghost view = { λ s. record {
      written = s.written.items;
      passed = take s.passed s.written.items;
      room = s.room;
      failing = s.calls.failing.items;
      calls = s.calls.count;
      failing_passes = s.passes.failing.items;
      passes = s.passes.count;
      faults = s.faults;
    } };

    ghost invariant = { λ s. (vec_len s.written ≤ s.room)
        × (s.room ≤ vec_capacity s.written)
        × (s.passed ≤ length s.written.items) };
}

impl MemorySink {
    /// An empty sink for at most `room` octets, for all of which it takes the memory. The puts
    /// whose numbers, from 1, are in `failing` fail.
    pub fn new(alloc: Global, room: u64, failing: &[u32]) -> Result<MemorySink, OutOfMemory>
        ensures { IfOk result (λ s. s ≡ fresh_sink room failing.now []) }
    {
        MemorySink::with_failing_passes(alloc, room, failing, &[])
    }

    /// The same, and the calls of `pass_on` whose numbers, from 1, are in `failing_passes` fail.
    pub fn with_failing_passes(
        alloc: Global,
        room: u64,
        failing: &[u32],
        failing_passes: &[u32],
    ) -> Result<MemorySink, OutOfMemory>
        ensures { IfOk result (λ s. s ≡ fresh_sink room failing.now failing_passes.now) }
    {
        Ok(MemorySink {
            written: Vec::with_capacity(alloc, room as usize)?,
            passed: 0,
            room,
            calls: Calls::new(alloc, failing)?,
            passes: Calls::new(alloc, failing_passes)?,
            faults: 0,
        })
    }

    /// What was put.
    pub fn written(&self) -> &[u8]
        ensures { result.now ≡ self.now.written }
    {
        &self.written
    }

    /// What was passed on.
    pub fn passed(&self) -> &[u8]
        ensures { result.now ≡ self.now.passed }
    {
        &self.written[..self.passed]
    }
}

impl Sink for MemorySink {
    ghost written = { λ s. Some s.written };

    ghost passed = { λ s. Some s.passed };

    ghost puts = { λ s. s.calls };

    ghost faults = { λ s. s.faults };

    fn put(&mut self, bytes: &[u8]) -> Result<(), SinkFailed>
        ensures all { OnOk result (Appends (Some self.old.written) (Some self.new.written) bytes.now) }
        ensures front { OnErr result (AppendsFront (Some self.old.written) (Some self.new.written) bytes.now) }
        ensures passes { PassesSome (Some self.old.passed) (Some self.new.passed) (Some self.new.written) }
        ensures counted { self.new.calls ≡ next_count self.old.calls }

        ensures never_falls { self.old.faults ≤ self.new.faults }
        ensures ok_unchanged { OnOk result (self.new.faults ≡ self.old.faults) }
        ensures failed_rose { OnErr result (Rose self.old.faults self.new.faults) }

        // Exactly the calls fail whose numbers are in `failing` or that pass the room.
        ensures fails { IsErr result
            ↔ (Contains self.old.failing (self.old.calls + 1)
            ⊎ (self.old.room < length self.old.written + length bytes.now)) }
        ensures ok { OnOk result (self.new ≡ after_writing bytes.now self.old) }
        ensures err { OnErr result (self.new ≡ after_failed_put self.old) }
    {
        let fails = self.calls.next_fails();
        let spare = self.room - self.written.len() as u64;
        if fails || spare < bytes.len() as u64 {
            self.faults = self.faults.saturating_add(1);
            return Err(SinkFailed);
        }
        match self.written.extend_from_slice(bytes) {
            Ok(()) => Ok(()),
            // `new` took the memory for all that fits.
            Err(_) => unreachable!(),
        }
    }

    fn pass_on(&mut self) -> Result<(), SinkFailed>
        ensures all { OnOk result (Some self.new.passed ≡ Some self.new.written) }
        ensures passes { PassesSome (Some self.old.passed) (Some self.new.passed) (Some self.new.written) }
        ensures nothing_put { (Some self.new.written ≡ Some self.old.written)
            × (self.new.calls ≡ self.old.calls) }

        ensures never_falls { self.old.faults ≤ self.new.faults }
        ensures ok_unchanged { OnOk result (self.new.faults ≡ self.old.faults) }
        ensures failed_rose { OnErr result (Rose self.old.faults self.new.faults) }

        // Exactly the calls fail whose numbers are in `failing_passes`.
        ensures fails { IsErr result ↔ Contains self.old.failing_passes (self.old.passes + 1) }
        ensures ok { OnOk result (self.new ≡ after_passing self.old) }
        ensures err { OnErr result (self.new ≡ after_failed_pass self.old) }
    {
        if self.passes.next_fails() {
            self.faults = self.faults.saturating_add(1);
            return Err(SinkFailed);
        }
        self.passed = self.written.len();
        Ok(())
    }
}
