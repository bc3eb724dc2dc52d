ghost use Rattle.std.specs.Prelude.{◌≡◌, ◌≤◌, IfOk, OnOk};
ghost use Rattle.net_plan.specs.Ranges.{IsInRange};
ghost use Rattle.tte_traces.specs.storms.{Storms.{HasStormed, Summarises}, summary.Lines.lines_of};
ghost use Rattle.tte_forms.specs.{Answering.Gives, Faults.{IsWanted, PutFailed}, Putting.{Over, PutsNone}};

use crate::storms::counting::Seen;
use crate::storms::events::StormEvents;
use crate::storms::summary::{LINES, Summary, Tally};
use drift_world::OutOfMemory;
use schedule_tables::Accepted;
use std::alloc::Global;
use tte_forms::{Status, end_with};
use tte_io::{LineText, Sink};
use tte_units::Units;
use world_drive::{Drove, begin_world, drive};

/// The summary of the run of a network under the storm of the seed over 1 to 100,000 cycles. It puts nothing.
///
/// The error is that memory ran out.
pub(crate) fn summary_of<K: Sink>(
    alloc: Global,
    accepted: &Accepted,
    seed: u64,
    cycles: u32,
    out: &mut K,
) -> Result<Summary, OutOfMemory>
    requires least { 1 ≤ cycles }
    requires most { cycles ≤ 100000 }
    ensures sums { IfOk result (Summarises accepted.now seed cycles) }
    ensures nothing_put { Over K.Sink out.old out.new PutsNone }
    ensures quiet { OnOk result (K.faults out.new ≡ K.faults out.old) }
{
    let mut world = match begin_world(alloc, accepted) {
        Ok(world) => world,
        Err(error) => return Err(error),
    };
    let mut storm = StormEvents::new(accepted, seed, cycles);
    let mut seen = Seen {
        tally: Tally::new(),
        spread: 0,
    };
    let mut none = ();
    let network = accepted.network();
    match drive(&mut storm, &mut none, &mut world, network, &mut seen, out) {
        Drove::All => Ok(told(accepted, seed, cycles, &seen)),
        // A storm does not stop.
        Drove::Stopped(()) => Err(OutOfMemory),
        Drove::Cut(_) => Err(OutOfMemory),
    }
}

/// The summary of what was seen of the whole run. The spread is at most the precision.
fn told(accepted: &Accepted, seed: u64, cycles: u32, seen: &Seen) -> Summary
    requires stormed { HasStormed accepted.now seed cycles seen.now }
    requires most { cycles ≤ 100000 }
    ensures { Summarises accepted.now seed cycles result }
{
    let precision = accepted.network().precision;
    Summary {
        seed,
        cycles,
        counts: seen.tally.counts(),
        spread: Units(seen.spread),
        precision,
    }
}

/// Puts the lines of a summary, and passes them on.
pub(crate) fn put_summary<K: Sink>(summary: &Summary, out: &mut K) -> Status
    ensures gives { Over K.Sink out.old out.new
        (Gives (record { status = Status.Done; lines = lines_of summary.now }) result) }
    ensures status { IsWanted Status.Done result (PutFailed K.Sink out.old out.new) }
{
    let mut line = LineText::new();
    'lines: for number in 0..LINES {
        summary.make_line(&mut line, number);
        match out.put(line.as_slice()) {
            Ok(()) => (),
            Err(_) => return Status::WriteFault,
        }
    }
    end_with(Status::Done, out)
}
