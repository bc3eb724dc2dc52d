ghost use Rattle.std.specs.Prelude.{◌++◌, ◌<◌, ◌∷◌, ◌≡◌, IfOk, List, MatchResult, None, Option, Some, [], true, ℕ};
ghost use Rattle.net_plan.specs.{Ranges.IsInRange, declared.network.Network.{Network as NetworkValue}};
ghost use Rattle.net_plan.specs.declared.event.Event.{Event as EventValue};
ghost use Rattle.run_law.specs.{declared.note.Note.{Note as NoteValue}, records.Ranks.rank};
ghost use Rattle.{tte_units.specs.Amount.amount, world_drive.specs.declared.observing.Cut.{Cut as CutValue}};
ghost use Rattle.world_drive.specs.Observing.{Befell, IsCompleteExact, IsGiven, MaySee, MaySeeEvent, MaySettle};
ghost use Rattle.world_drive.specs.Observing.{PutsFurther, Start, Told, instant_of, told_by};

use crate::exact::ExactWorld;
use drift_world::EventNote;
use net_plan::{Event, Network};
use run_law::plain::PlainNote;
use tte_io::Sink;
use tte_units::Units;

/// Why a drive is cut short.
#[derive(Clone, Copy, PartialEq, Eq)]
pub enum Cut {
    /// What was to be put could not be.
    WriteFault,
    /// Memory ran out.
    OutOfMemory,
}

/// What looks at the events and the records of a run, one by one.
pub trait Observer<K: Sink>: Drop {
    /// From the start, at which it was another value, it has seen the records of a network under these events, and put
    /// what leads to this. It may wait for the end of the instant that is underway.
    ghost sees: { NetworkValue → List EventValue → List NoteValue → Option ℕ → Start Self → Told → Self → Type 0 };

    /// What was put where a call failed at the last of these records.
    ghost stops: { NetworkValue → List EventValue → List NoteValue → CutValue → Start Self → Told → Type 0 };

    /// Sees the record that the world gave. It answers whether the end of this record's instant is to be told.
    ///
    /// That of an event's record is not asked for, since further events may befall the world at its time.
    fn record(
        &mut self,
        world: &ExactWorld<'_>,
        network: &Network,
        note: &PlainNote,
        out: &mut K,
    ) -> Result<bool, Cut>
        requires in_range { IsInRange network.now }
        requires may { MaySee sees network.now world.now note.now self.old (told_by K.Sink out.old) }
        ensures goes { (events : List EventValue) (notes : List NoteValue) (instant : Option ℕ) (old : Start Self)
            → IsGiven network.now world.now instant events notes note.now
            → sees network.now events notes instant old (told_by K.Sink out.old) self.old
            → MatchResult result (λ asks. sees network.now events (notes ++ note.now ∷ [])
            (instant_of instant asks note.now.time) old (told_by K.Sink out.new) self.new)
            (λ cut. stops network.now events (notes ++ note.now ∷ []) cut old (told_by K.Sink out.new)) }
        ensures asks { IfOk result (λ asks. asks ≡ true → 2 < rank note.now.body) }
        ensures puts { PutsFurther K.Sink result out.old out.new };

    /// Sees the event that befell the world, and its record.
    fn event(
        &mut self,
        world: &ExactWorld<'_>,
        network: &Network,
        event: &Event,
        note: &EventNote<'_>,
        out: &mut K,
    ) -> Result<(), Cut>
        requires in_range { IsInRange network.now }
        requires may { MaySeeEvent sees network.now world.now event.now note.now self.old (told_by K.Sink out.old) }
        ensures goes { (events : List EventValue) (notes : List NoteValue) (old : Start Self)
            → Befell network.now world.now events notes event.now note.now
            → sees network.now events notes None old (told_by K.Sink out.old) self.old
            → MatchResult result (λ _. sees network.now (events ++ event.now ∷ []) (notes ++ note.now ∷ []) None old
            (told_by K.Sink out.new) self.new)
            (λ cut. stops network.now (events ++ event.now ∷ []) (notes ++ note.now ∷ []) cut old
            (told_by K.Sink out.new)) }
        ensures puts { PutsFurther K.Sink result out.old out.new };

    /// Sees that all records of the instant that it asked for are given. The world shows the clocks of that time.
    fn instant(
        &mut self,
        world: &ExactWorld<'_>,
        network: &Network,
        time: Units,
        out: &mut K,
    ) -> Result<(), Cut>
        requires in_range { IsInRange network.now }
        requires may { MaySettle sees network.now world.now time self.old (told_by K.Sink out.old) }
        ensures goes { (events : List EventValue) (notes : List NoteValue) (old : Start Self)
            → IsCompleteExact network.now world.now (amount time) events notes
            → sees network.now events notes (Some (amount time)) old (told_by K.Sink out.old) self.old
            → MatchResult result (λ _. sees network.now events notes None old (told_by K.Sink out.new) self.new)
            (λ cut. stops network.now events notes cut old (told_by K.Sink out.new)) }
        ensures puts { PutsFurther K.Sink result out.old out.new };

    /// Where memory runs out in the world, no more is put.
    ghost cut: { (network : NetworkValue) (events : List EventValue) (notes : List NoteValue) (instant : Option ℕ)
        (old : Start Self) (put : Told) (o : Self) → sees network events notes instant old put o
        → stops network events notes CutValue.OutOfMemory old put };
}
