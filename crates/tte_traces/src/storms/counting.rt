ghost use Rattle.std.specs.Prelude.{◌≡◌, refl};
ghost use Rattle.{run_law.specs.plain.Bodies.body_of, world_drive.specs.declared.observing.Cut.{Cut as CutValue}};
ghost use Rattle.tte_traces.specs.storms.{Counts.{IsSeen, corrects}, summary.Counting.{counted_as, counts_of}};

use crate::storms::spreads::spread_at;
use crate::storms::summary::{Counted, Tally};
use drift_world::EventNote;
use net_plan::{Event, Network};
use run_law::plain::{PlainKind, PlainNote};
use tte_io::Sink;
use tte_units::Units;
use world_drive::exact::ExactWorld;
use world_drive::{Cut, Observer};

/// What was seen of a run. It puts nothing.
#[derive(Drop)]
pub(crate) struct Seen {
    pub(crate) tally: Tally,
    /// How far apart the local clocks were at most, at a time of a correction, in units of 2^-16 ns.
    pub(crate) spread: i64,
}

/// Is the record that of a correction?
fn is_correction(kind: &PlainKind) -> bool
    ensures { result ≡ corrects (body_of kind.now) }
{
    matches!(kind, PlainKind::Corrected { .. })
}

/// Which line of a summary counts the record.
fn counted_as(kind: &PlainKind) -> Counted
    ensures { result ≡ counted_as (body_of kind.now) }
{
    match kind {
        PlainKind::Compressed { .. } => Counted::Compressed,
        PlainKind::Corrected { .. } => Counted::Corrected,
        PlainKind::Lost { .. } => Counted::Lost,
        PlainKind::TtSent { .. } => Counted::TtSent,
        PlainKind::Accepted { .. } => Counted::Accepted,
        PlainKind::Delivered { .. } => Counted::Delivered,
        PlainKind::Dropped { reason, .. } => Counted::Dropped(*reason),
        PlainKind::Arrived { .. }
        | PlainKind::Permanent { .. }
        | PlainKind::Sent { .. }
        | PlainKind::State { .. }
        | PlainKind::Left { .. }
        | PlainKind::Clock { .. } => Counted::Unlisted,
    }
}

impl<K: Sink> Observer<K> for Seen {
    ghost sees = { λ network events notes instant old put it. IsSeen network events notes instant old.told put it };

    ghost stops = { λ network events notes cut old put. (cut ≡ CutValue.OutOfMemory) × (put ≡ old.told) };

    ghost cut = { λ network events notes instant old put it seen. (refl, seen.unput) };

    /// Counts the record. Where it is that of a correction, the spread of its time is to be taken.
    #[inline(always)]
    fn record(
        &mut self,
        _world: &ExactWorld<'_>,
        _network: &Network,
        note: &PlainNote,
        _out: &mut K,
    ) -> Result<bool, Cut> {
        let kind = note.body().kind;
        self.tally.add(counted_as(&kind));
        Ok(is_correction(&kind))
    }

    fn event(
        &mut self,
        _world: &ExactWorld<'_>,
        _network: &Network,
        _event: &Event,
        _note: &EventNote<'_>,
        _out: &mut K,
    ) -> Result<(), Cut> {
        self.tally.add(Counted::Unlisted);
        Ok(())
    }

    /// Takes the spread of the time.
    fn instant(
        &mut self,
        world: &ExactWorld<'_>,
        network: &Network,
        time: Units,
        _out: &mut K,
    ) -> Result<(), Cut> {
        let spread = spread_at(world, network, time);
        if self.spread < spread {
            self.spread = spread;
        }
        Ok(())
    }
}
