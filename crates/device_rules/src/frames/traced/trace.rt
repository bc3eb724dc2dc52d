ghost use Rattle.std.specs.Prelude.{◌++◌, ◌∷◌, ◌≡◌, IfOk, List, OnErr, OnOk, [], ℕ};
ghost use Rattle.net_plan.specs.declared.network.Network.{Network};
ghost use Rattle.run_law.specs.declared.note.Note.{Note as NoteValue};
ghost use Rattle.device_rules.specs.frames.traced.{Keeping.Keeps, RecordOctets.octets_of};

use crate::frames::traced::keeping::{kept_at, kept_of};
use crate::frames::traced::kept::KeptFrame;
use crate::frames::traced::showing::shown;
use crate::frames::traced::{OctetsOfRecord, OutOfMemory};
use run_law::Note;
use schedule_tables::Accepted;
use std::alloc::Global;
use std::marker::Model;

/// The octets of the records of a network's run so far, by the records' numbers.
#[derive(Drop)]
pub struct FrameTrace<'a> {
    accepted: &'a Accepted,
    // The octets of the `send` events, one behind another.
    pool: Vec<u8>,
    records: Vec<KeptFrame>,
}

impl<'a> Model for FrameTrace<'a> {
    ghost use Rattle.std.specs.List.{All};
    ghost use Rattle.device_rules.specs.frames.traced.Keeping.{IsHeld, TraceView, views_of};

    ghost Value = { TraceView };

    ghost view = { λ t. record {
      network = t.accepted.now;
      records = views_of t.accepted.now t.pool.items t.records.items;
    } };

    ghost invariant = { λ t. All (IsHeld t.pool.items) t.records.items };
}

impl<'a> FrameTrace<'a> {
    /// The trace of no records.
    pub fn new(alloc: Global, accepted: &'a Accepted) -> Result<FrameTrace<'a>, OutOfMemory>
        ensures { IfOk result (λ trace. Keeps accepted.now [] trace) }
    {
        Ok(FrameTrace {
            accepted,
            pool: Vec::new(alloc),
            records: Vec::new(alloc),
        })
    }

    /// Takes a further record. The records of a run come in their order, from number 1. Where memory runs out the trace
    /// is as it was.
    pub fn note(&mut self, note: &Note) -> Result<(), OutOfMemory>
        ensures keeps { (network : Network) (notes : List NoteValue) → Keeps network notes self.old
            → OnOk result (Keeps network (notes ++ note.now ∷ []) self.new) }
        ensures as_it_was { OnErr result (self.new ≡ self.old) }
    {
        let network = self.accepted.network();
        let kept = match kept_of(network, &mut self.pool, &self.records, &note.body) {
            Ok(kept) => kept,
            Err(error) => return Err(error),
        };
        match self.records.push(kept) {
            Ok(()) => Ok(()),
            Err(_) => Err(OutOfMemory),
        }
    }

    /// The octets of the record of this number. It is None exactly where the record's kind has none, or where no such
    /// record has come.
    pub fn octets(&self, number: u64) -> Option<OctetsOfRecord>
        ensures { (network : Network) (notes : List NoteValue) → Keeps network notes self.now
            → result ≡ octets_of network notes number }
    {
        match kept_at(&self.records, number) {
            Some(kept) => shown(self.accepted.network(), &self.pool, kept),
            None => None,
        }
    }
}
