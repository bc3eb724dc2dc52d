ghost use Rattle.std.specs.{Io.KnownBytes.IsAtEnd, Prelude.{◌↔◌, ◌≡◌, ◌≤◌, IsTrue, OnErr, OnOk, [], drop, length}};
ghost use Rattle.tte_io.specs.{Faults.Rose, Line.ahead_limit, Steps.Fills};

use crate::{Source, SourceFailed};
use std::marker::Model;

/// How many octets are read at a time at most.
const ROOM: usize = 4096;

/// Octets that were read and belong to no line yet.
#[derive(Drop)]
pub(crate) struct Ahead {
    octets: [u8; ROOM],
    from: usize,
    to: usize,
}

impl Model for Ahead {
    ghost use Rattle.std.specs.Prelude.{ℕ, List, ◌≤◌, slice_range};
    ghost use Rattle.tte_io.specs.Line.{ahead_limit};

    ghost Value = { List ℕ };

    ghost view = { λ a. slice_range a.octets a.from a.to };

    ghost invariant = { λ a. (a.from ≤ a.to) × (a.to ≤ ahead_limit) };
}

impl Ahead {
    pub(crate) fn new() -> Ahead
        ensures { result ≡ [] }
    {
        Ahead {
            octets: [0; ROOM],
            from: 0,
            to: 0,
        }
    }

    pub(crate) fn is_empty(&self) -> bool
        ensures { IsTrue result ↔ (self.now ≡ []) }
    {
        self.from == self.to
    }

    pub(crate) fn as_slice(&self) -> &[u8]
        ensures { result.now ≡ self.now }
    {
        &self.octets[self.from..self.to]
    }

    /// Sees that octets are ahead, by a read where none are. None are ahead then only at the end.
    pub(crate) fn fill<S: Source>(&mut self, source: &mut S) -> Result<(), SourceFailed>
        requires { length self.old ≤ ahead_limit }
        ensures fills { Fills self.old (S.left source.old) self.new (S.left source.new) }
        ensures bound { length self.new ≤ ahead_limit }
        ensures end { OnOk result (self.new ≡ [] → IsAtEnd (S.left source.new)) }
        ensures failed { OnErr result (self.new ≡ []) }

        ensures never_falls { S.faults source.old ≤ S.faults source.new }
        ensures ok_unchanged { OnOk result (S.faults source.new ≡ S.faults source.old) }
        ensures failed_rose { OnErr result (Rose (S.faults source.old) (S.faults source.new)) }
    {
        if !self.is_empty() {
            return Ok(());
        }
        self.from = 0;
        self.to = 0;
        self.to = source.read(&mut self.octets)?;
        Ok(())
    }

    /// Lets the first `count` octets go.
    pub(crate) fn consume(&mut self, count: usize)
        requires { count ≤ length self.old }
        ensures { self.new ≡ drop count self.old }
    {
        self.from += count;
    }
}
