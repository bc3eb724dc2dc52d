ghost use Rattle.std.specs.Prelude.{◌≡◌, None, [], true};
ghost use Rattle.net_plan.specs.Ranges.{IsInRange};
ghost use Rattle.world_drive.specs.{Driving.Drives, Observing.{start_by, told_by}, exact.Worlds.StandsExact};

use crate::exact::ExactWorld;
use crate::observing::{Cut, Observer};
use crate::seeing::{next_unit, see_event, see_until};
use crate::sources::Events;
use net_plan::{Event, Network, What};
use tte_io::Sink;
use tte_units::Units;

/// How a drive ended.
#[derive(Drop)]
pub enum Drove<S> {
    /// All events befell the world, and all records of its run were seen.
    All,
    /// The source stopped for the cause, and all records up to that of the last event were seen.
    Stopped(S),
    /// What was to be put could not be, or memory ran out.
    Cut(Cut),
}

/// Lets the events of a source, which takes them from `from`, befall a world that nothing has befallen. An observer
/// sees them and all records of the run.
pub fn drive<B, K: Sink, S, E: Events<B, K, S>, O: Observer<K>>(
    source: &mut E,
    from: &mut B,
    world: &mut ExactWorld<'_>,
    network: &Network,
    observer: &mut O,
    out: &mut K,
) -> Drove<S>
    requires in_range { IsInRange network.now }
    requires world { StandsExact network.now world.old [] [] }
    requires fresh { (world.old.now ≡ 0) × (world.old.early ≡ true) }
    requires source { E.gave network.now from.old source.old [] from.old source.old }
    requires observer { O.sees network.now [] [] None (start_by K.Sink out.old observer.old) (told_by K.Sink out.old)
        observer.old }
    ensures { Drives K.Sink E.gave E.ended E.stopped O.sees O.stops network.now from.old source.old result
        from.new source.new world.new observer.old observer.new out.old out.new }
{
    // An event is large: each is put in the place of the one before.
    let mut event = Event {
        time: Units(0),
        what: What::End,
    };
    let mut time = Units(0);
    let mut line: u64 = 0;
    'events: loop {
        match source.next_event(from, &mut event, out) {
            Ok(true) => {
                line += 1;
                match see_event(world, network, line, &event, observer, out) {
                    Ok(()) => time = event.time,
                    Err(cut) => return Drove::Cut(cut),
                }
            }
            Ok(false) => {
                return match see_until(world, network, next_unit(time), observer, out) {
                    Ok(()) => Drove::All,
                    Err(cut) => Drove::Cut(cut),
                };
            }
            Err(stop) => return Drove::Stopped(stop),
        }
    }
}
