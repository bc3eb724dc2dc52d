ghost use Rattle.std.specs.Prelude.{◌≡◌, ◌≤◌, ◌⊎◌};
ghost use Rattle.tte_forms.specs.{Answering.AnswersOne, Faults.{HasCause, IsWanted, PutFailed, ReadFailed}};
ghost use Rattle.tte_forms.specs.{Putting.Over, networks.{Accepting.IsNetworkAnswer, Checking.IsCheckStatus}};
ghost use Rattle.tte_forms.specs.{Taking.TakesUpTo, frames.Answer.file_limit};
ghost use Rattle.tte_traces.specs.storms.{Answer.IsStormAnswer, Safely.SummarisesSafely, Storms.EndsStorm};

use crate::storms::summing::{put_summary, summary_of};
use schedule_tables::Accepted;
use std::alloc::Global;
use tte_forms::{Status, accept, put_no_network};
use tte_io::{Sink, Source};

/// Runs the network of a file under the storm of the seed over 1 to 100,000 cycles, and writes its summary. It keeps no
/// record.
pub fn storm_run<A: Source, K: Sink>(
    alloc: Global,
    source: &mut A,
    seed: u64,
    cycles: u32,
    out: &mut K,
) -> Status
    requires least { 1 ≤ cycles }
    requires most { cycles ≤ 100000 }
    ensures general { Over K.Sink out.old out.new
        (AnswersOne (IsNetworkAnswer (IsStormAnswer seed cycles)) (A.left source.old) result) }
    ensures safe { Over K.Sink out.old out.new (SummarisesSafely seed cycles (A.left source.old) result) }
    ensures statuses { IsCheckStatus result }
    // Where the source failed, nothing was written.
    ensures faults { HasCause result (ReadFailed A.Source source.old source.new × (out.new ≡ out.old))
        (PutFailed K.Sink out.old out.new) }
    ensures taken { TakesUpTo file_limit (A.left source.old) (A.left source.new) }
{
    match accept(alloc, source) {
        Ok(accepted) => run_storm(alloc, &accepted, seed, cycles, out),
        Err(cause) => put_no_network(cause, out),
    }
}

fn run_storm<K: Sink>(
    alloc: Global,
    accepted: &Accepted,
    seed: u64,
    cycles: u32,
    out: &mut K,
) -> Status
    requires least { 1 ≤ cycles }
    requires most { cycles ≤ 100000 }
    ensures ends { Over K.Sink out.old out.new (EndsStorm accepted.now seed cycles result) }
    ensures status { (result ≡ Status.OutOfMemory)
        ⊎ IsWanted Status.Done result (PutFailed K.Sink out.old out.new) }
{
    match summary_of(alloc, accepted, seed, cycles, out) {
        Ok(summary) => put_summary(&summary, out),
        Err(_) => Status::OutOfMemory,
    }
}
