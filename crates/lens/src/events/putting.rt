ghost use Rattle.std.specs.Prelude.{◌≡◌, ◌≤◌};
ghost use Rattle.{lens.specs.events.Answer.IsEventsAnswer, tte_forms.specs.Putting.Over};
ghost use Rattle.tte_forms.specs.{Answering.{AnswersOne, GivesAnswer}, networks.Accepting.IsNetworkAnswer};
ghost use Rattle.tte_forms.specs.{Taking.TakesUpTo, frames.Answer.file_limit};
ghost use Rattle.tte_forms.specs.{Faults.{HasCause, IsWanted, PutFailed, ReadFailed}, networks.Checking.IsCheckStatus};

use schedule_tables::Accepted;
use std::alloc::Global;
use trace_text::print;
use tte_forms::{Status, accept, end_with, put_no_network};
use tte_io::{Sink, Source};
use tte_traces::storms::{StormEvents, frames_fit};

/// Writes the events of the storm of the seed over 1 to 100,000 cycles on the network of a file, a line for each: a
/// trace, which `run` takes to its end. It keeps no event.
///
/// `storm_report_law` says that the run over these lines is the one that `storm` sums up.
pub fn storm_events<A: Source, K: Sink>(
    alloc: Global,
    source: &mut A,
    seed: u64,
    cycles: u32,
    out: &mut K,
) -> Status
    requires least { 1 ≤ cycles }
    requires most { cycles ≤ 100000 }
    ensures general { Over K.Sink out.old out.new
        (AnswersOne (IsNetworkAnswer (IsEventsAnswer seed cycles)) (A.left source.old) result) }
    ensures statuses { IsCheckStatus result }
    // Where the source failed, nothing was written.
    ensures faults { HasCause result (ReadFailed A.Source source.old source.new × (out.new ≡ out.old))
        (PutFailed K.Sink out.old out.new) }
    ensures taken { TakesUpTo file_limit (A.left source.old) (A.left source.new) }
{
    match accept(alloc, source) {
        Ok(accepted) => put_events(&accepted, seed, cycles, out),
        Err(cause) => put_no_network(cause, out),
    }
}

/// Puts the events of the storm on an accepted network.
fn put_events<K: Sink>(accepted: &Accepted, seed: u64, cycles: u32, out: &mut K) -> Status
    requires least { 1 ≤ cycles }
    requires most { cycles ≤ 100000 }
    ensures gives { Over K.Sink out.old out.new (GivesAnswer (IsEventsAnswer seed cycles accepted.now) result) }
    ensures status { IsWanted Status.Done result (PutFailed K.Sink out.old out.new) }
{
    let network = accepted.network();
    frames_fit(network);
    let mut storm = StormEvents::new(accepted, seed, cycles);
    'events: loop {
        match storm.next() {
            Some(event) => match print(network, &event, out) {
                Ok(()) => (),
                Err(_) => return Status::WriteFault,
            },
            None => return end_with(Status::Done, out),
        }
    }
}
