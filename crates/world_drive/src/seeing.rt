ghost use Rattle.std.specs.Prelude.{◌+ℤ◌, ◌+◌, ◌^◌, ◌≡◌, ◌≤ℤ◌, List, MatchResult, None, OnOk, Some, false, pos, true};
ghost use Rattle.{drift_world.specs.Running.Reaches, net_plan.specs.declared.event.Event.{Event as EventValue}};
ghost use Rattle.{net_plan.specs.Ranges.IsInRange, run_law.specs.declared.note.Note.{Note as NoteValue}};
ghost use Rattle.tte_units.specs.Amount.{amount};
ghost use Rattle.world_drive.specs.{Observing.{PutsFurther, Start, told_by}, exact.Worlds.{IsReached, StandsExact}};
ghost use Rattle.world_drive.specs.Seeing.{ComesNext, CutsAtEvent, CutsBefore, HasSeen, HasSeenInstant, IsAsked};
ghost use Rattle.world_drive.specs.Seeing.{IsPast, IsUnderwayAt, MayMeet, SeesEvent, SeesInstant, SeesUntil};

use crate::exact::ExactWorld;
use crate::observing::{Cut, Observer};
use net_plan::{Event, Network};
use run_law::plain::PlainNote;
use tte_io::Sink;
use tte_units::Units;

/// The time after.
pub(crate) fn next_unit(time: Units) -> Units
    requires begun { pos 0 ≤ℤ time.0 }
    requires limit { time.0 ≤ℤ pos (2 ^ 60) }
    ensures { result.0 ≡ time.0 +ℤ pos 1 }
{
    Units(time.0 + 1)
}

/// Sees the further records of the instant that is underway, and that it is over.
fn see_instant<K: Sink, O: Observer<K>>(
    world: &mut ExactWorld<'_>,
    network: &Network,
    time: Units,
    observer: &mut O,
    out: &mut K,
) -> Result<(), Cut>
    requires in_range { IsInRange network.now }
    requires seen { HasSeenInstant O.sees network.now world.old time observer.old (told_by K.Sink out.old) }
    ensures sees { (events : List EventValue) (notes : List NoteValue) (old : Start O)
        → IsUnderwayAt network.now world.old events notes time
        → O.sees network.now events notes (Some (amount time)) old (told_by K.Sink out.old) observer.old
        → MatchResult result
        (λ _. SeesInstant O.sees network.now events notes time world.new observer.new old (told_by K.Sink out.new))
        (λ cut. CutsBefore O.stops network.now events notes (amount time + 1) cut old (told_by K.Sink out.new)) }
    ensures past { OnOk result (IsPast world.old world.new) }
    ensures puts { PutsFurther K.Sink result out.old out.new }
{
    let mut note = PlainNote::none();
    'notes: loop {
        match world.next_given(next_unit(time), &mut note) {
            Ok(true) => match observer.record(world, network, &note, out) {
                Ok(_) => (),
                Err(cut) => return Err(cut),
            },
            Ok(false) => return observer.instant(world, network, time, out),
            Err(_) => return Err(Cut::OutOfMemory),
        }
    }
}

/// Sees the records that are earlier than a time.
pub(crate) fn see_until<K: Sink, O: Observer<K>>(
    world: &mut ExactWorld<'_>,
    network: &Network,
    until: Units,
    observer: &mut O,
    out: &mut K,
) -> Result<(), Cut>
    requires in_range { IsInRange network.now }
    requires seen { HasSeen O.sees network.now world.old observer.old (told_by K.Sink out.old) }
    requires asked { IsAsked world.old until }
    ensures sees { (events : List EventValue) (notes : List NoteValue) (old : Start O)
        → StandsExact network.now world.old events notes
        → O.sees network.now events notes None old (told_by K.Sink out.old) observer.old
        → MatchResult result (λ _. SeesUntil O.sees network.now events notes until world.old world.new observer.new old
        (told_by K.Sink out.new))
        (λ cut. CutsBefore O.stops network.now events notes (amount until) cut old (told_by K.Sink out.new)) }
    ensures reached { OnOk result (Reaches world.old world.new until) }
    ensures puts { PutsFurther K.Sink result out.old out.new }
{
    let mut note = PlainNote::none();
    'notes: loop {
        match world.next_given(until, &mut note) {
            Ok(true) => match observer.record(world, network, &note, out) {
                Ok(false) => (),
                Ok(true) => match see_instant(world, network, note.time, observer, out) {
                    Ok(()) => (),
                    Err(cut) => return Err(cut),
                },
                Err(cut) => return Err(cut),
            },
            Ok(false) => return Ok(()),
            Err(_) => return Err(Cut::OutOfMemory),
        }
    }
}

/// Sees the records that are earlier than the event of this line, lets it befall the world, and sees its record.
pub(crate) fn see_event<K: Sink, O: Observer<K>>(
    world: &mut ExactWorld<'_>,
    network: &Network,
    line: u64,
    event: &Event,
    observer: &mut O,
    out: &mut K,
) -> Result<(), Cut>
    requires in_range { IsInRange network.now }
    requires may { MayMeet O.sees network.now world.old line event.now observer.old (told_by K.Sink out.old) }
    ensures sees { (events : List EventValue) (notes : List NoteValue) (old : Start O)
        → ComesNext network.now world.old events notes event.now
        → O.sees network.now events notes None old (told_by K.Sink out.old) observer.old
        → MatchResult result (λ _. SeesEvent O.sees network.now events notes event.now world.new observer.new old
        (told_by K.Sink out.new))
        (λ cut. CutsAtEvent O.stops network.now events notes event.now cut old (told_by K.Sink out.new)) }
    ensures reached { OnOk result (IsReached world.new event.now.time) }
    ensures puts { PutsFurther K.Sink result out.old out.new }
{
    match see_until(world, network, event.time, observer, out) {
        Ok(()) => (),
        Err(cut) => return Err(cut),
    }
    match world.befall(line, event) {
        Ok(note) => observer.event(world, network, event, &note, out),
        Err(_) => Err(Cut::OutOfMemory),
    }
}
