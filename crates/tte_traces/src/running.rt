ghost use Rattle.std.specs.Prelude.{◌≡◌, ◌⊎◌};
ghost use Rattle.tte_forms.specs.{Answering.{ForOctets, GivesAnswer}, Faults.{HasCause, PutFailed, ReadFailed}};
ghost use Rattle.tte_forms.specs.{Putting.Over, Taking.TakesUpTo, frames.Answer.file_limit};
ghost use Rattle.tte_forms.specs.networks.Accepting.{IsNetworkAnswer};
ghost use Rattle.tte_traces.specs.{Answer.{IsRunAnswer, IsRunStatus, report_lines}, Ending.RunEnds};
ghost use Rattle.tte_traces.specs.{Safely.WritesSafely, Streaming.{RunStops, RunTakesLittle}};

use crate::driving::follow_trace;
use crate::report::Report;
use schedule_tables::Accepted;
use std::alloc::Global;
use tte_forms::{Status, accept, put_no_network};
use tte_io::{Sink, Source};

/// Runs the network of the first file under the trace of the second. It takes the trace line by
/// line, and writes each record as soon as it is known.
pub fn run_trace<A: Source, B: Source, K: Sink>(
    alloc: Global,
    first: &mut A,
    second: &mut B,
    out: &mut K,
) -> Status
    ensures general { Over K.Sink out.old out.new (λ old new.
        ForOctets (A.left first.old) (λ octets. ForOctets (B.left second.old) (λ trace.
        GivesAnswer (IsNetworkAnswer (IsRunAnswer trace) octets) result old new))) }
    ensures safe { Over K.Sink out.old out.new (WritesSafely (A.left first.old) (B.left second.old) result) }
    ensures statuses { IsRunStatus result }
    // Where the first source failed, nothing was written.
    ensures faults { HasCause result
        ((ReadFailed A.Source first.old first.new × (out.new ≡ out.old) × (second.new ≡ second.old))
        ⊎ (ReadFailed B.Source second.old second.new
        × Over K.Sink out.old out.new (RunStops (A.left first.old) (B.left second.old) (B.left second.new))))
        (PutFailed K.Sink out.old out.new) }
    ensures takes { TakesUpTo file_limit (A.left first.old) (A.left first.new)
        × ((second.new ≡ second.old)
        ⊎ Over K.Sink out.old out.new (RunTakesLittle (A.left first.old) (B.left second.old) (B.left second.new))) }
{
    match accept(alloc, first) {
        Ok(accepted) => run_network(alloc, &accepted, second, out),
        Err(cause) => put_no_network(cause, out),
    }
}

fn run_network<B: Source, K: Sink>(
    alloc: Global,
    accepted: &Accepted,
    second: &mut B,
    out: &mut K,
) -> Status
    ensures ends { Over K.Sink out.old out.new (RunEnds (λ trace. IsRunAnswer trace accepted.now) report_lines
        accepted.now (B.left second.old) (B.left second.new) result) }
    ensures statuses { IsRunStatus result }
    ensures cause { HasCause result (ReadFailed B.Source second.old second.new) (PutFailed K.Sink out.old out.new) }
{
    let mut report = Report::new();
    follow_trace(alloc, accepted, second, &mut report, out)
}
