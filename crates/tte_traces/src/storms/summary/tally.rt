ghost use Rattle.std.specs.Prelude.{◌≡◌, ◌<◌, ◌+◌, ◌^◌, [], ◌∷◌, ◌++◌, List};
ghost use Rattle.run_law.specs.declared.note.Note.{Note as NoteValue};
ghost use Rattle.tte_traces.specs.storms.summary.Counting.{all_drops, counted_as, counts_of, with_drop};

use crate::storms::summary::counted::{Counted, counted_as};
use crate::storms::summary::counts::{Counts, Drops};
use run_law::{Note, Reason};
use std::marker::Model;

/// The counts of the records so far.
#[derive(Drop)]
pub struct Tally {
    counts: Counts,
}

impl Model for Tally {
    ghost use Rattle.tte_traces.specs.storms.summary.Counting.{AreWithinRecords};
    ghost use Rattle.tte_traces.specs.declared.storms.summary.counts.Counts.{Counts};

    ghost Value = { Counts };

    ghost view = { λ t. t.counts };

    ghost invariant = { λ t. AreWithinRecords t.counts };
}

impl Tally {
    /// The tally of no records.
    pub fn new() -> Tally
        ensures { result ≡ counts_of [] }
    {
        Tally {
            counts: Counts::NONE,
        }
    }

    /// Counts one more record, of which there are fewer than 2^64 in all.
    pub fn count(&mut self, note: &Note)
        requires { self.old.records + 1 < 2 ^ 64 }
        ensures { (notes : List NoteValue) → self.old ≡ counts_of notes
            → self.new ≡ counts_of (notes ++ note.now ∷ []) }
    {
        self.add(counted_as(&note.body));
    }

    /// Counts one more record, by the line that counts it. There are fewer than 2^64 in all.
    #[inline(always)]
    pub fn add(&mut self, counted: Counted)
        requires { self.old.records + 1 < 2 ^ 64 }
        ensures { (notes : List NoteValue) (note : NoteValue) → counted ≡ counted_as note.body
            → self.old ≡ counts_of notes → self.new ≡ counts_of (notes ++ note ∷ []) }
    {
        self.counts.records += 1;
        match counted {
            Counted::Compressed => self.counts.compressed += 1,
            Counted::Corrected => self.counts.corrected += 1,
            Counted::Lost => self.counts.lost += 1,
            Counted::TtSent => self.counts.tt_sent += 1,
            Counted::Accepted => self.counts.accepted += 1,
            Counted::Delivered => self.counts.delivered += 1,
            Counted::Dropped(reason) => count_drop(&mut self.counts.dropped, reason),
            Counted::Unlisted => (),
        }
    }

    /// The counts.
    pub fn counts(&self) -> Counts
        ensures { result ≡ self.now }
    {
        self.counts
    }
}

fn count_drop(drops: &mut Drops, reason: Reason)
    requires { all_drops drops.old + 1 < 2 ^ 64 }
    ensures more { drops.new ≡ with_drop reason drops.old }
    ensures sum { all_drops drops.new ≡ all_drops drops.old + 1 }
{
    match reason {
        Reason::Off => drops.off += 1,
        Reason::ColdStart => drops.cold_start += 1,
        Reason::Domain => drops.domain += 1,
        Reason::Member => drops.member += 1,
        Reason::Old => drops.too_old += 1,
        Reason::Gate => drops.gate += 1,
        Reason::Cycle => drops.cycle += 1,
        Reason::Unsynchronised => drops.unsynchronised += 1,
        Reason::Unknown => drops.unknown += 1,
        Reason::Length => drops.wrong_length += 1,
        Reason::Early => drops.early += 1,
        Reason::Late => drops.late += 1,
        Reason::Repeat => drops.repeated += 1,
        Reason::RefusedLength(_)
        | Reason::RefusedEtherType
        | Reason::RefusedReserved(_)
        | Reason::RefusedKind(_) => drops.refused += 1,
    }
}
