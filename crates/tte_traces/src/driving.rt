ghost use Rattle.std.specs.Prelude.{◌≡◌, None, [], true};
ghost use Rattle.tte_forms.specs.{Faults.{HasCause, PutFailed, ReadFailed}, Putting.Over};
ghost use Rattle.world_drive.specs.{Observing.{start_by, told_by}, exact.Worlds.StandsExact};
ghost use Rattle.tte_traces.specs.{Along.PutsAlong, Answer.{IsRunStatus, IsTraceAnswer, LinesOf}, Ending.RunEnds};

use crate::fault::TraceStop;
use crate::lines::Trace;
use crate::refusing::put_fault;
use schedule_tables::Accepted;
use std::alloc::Global;
use tte_forms::{Status, end_with};
use tte_io::{LineText, Sink, Source};
use world_drive::exact::ExactWorld;
use world_drive::{Cut, Drove, Observer, begin_world, drive};

/// Runs an accepted network under a trace, which is taken line by line, to its end, or to where that is cut short. An
/// observer sees the run and writes its lines. Behind them stands the line of the trace's fault, if it has one.
pub fn follow_trace<B: Source, K: Sink, O: Observer<K>>(
    alloc: Global,
    accepted: &Accepted,
    second: &mut B,
    observer: &mut O,
    out: &mut K,
) -> Status
    requires { O.sees accepted.now [] [] None (start_by K.Sink out.old observer.old) (told_by K.Sink out.old)
        observer.old }
    ensures ends { (lines : LinesOf) → PutsAlong observer.old O.sees O.stops lines (IsTraceAnswer lines)
        → Over K.Sink out.old out.new (RunEnds (λ trace. IsTraceAnswer lines trace accepted.now) lines accepted.now
        (B.left second.old) (B.left second.new) result) }
    ensures statuses { IsRunStatus result }
    ensures cause { HasCause result (ReadFailed B.Source second.old second.new) (PutFailed K.Sink out.old out.new) }
{
    match begin_world(alloc, accepted) {
        Ok(mut world) => follow_world(accepted, &mut world, second, observer, out),
        Err(_) => Status::OutOfMemory,
    }
}

/// Runs a world that nothing has befallen to the end of the trace, or to where that is cut short.
fn follow_world<B: Source, K: Sink, O: Observer<K>>(
    accepted: &Accepted,
    world: &mut ExactWorld<'_>,
    second: &mut B,
    observer: &mut O,
    out: &mut K,
) -> Status
    requires world { StandsExact accepted.now world.old [] [] }
    requires fresh { (world.old.now ≡ 0) × (world.old.early ≡ true) }
    requires seen { O.sees accepted.now [] [] None (start_by K.Sink out.old observer.old) (told_by K.Sink out.old)
        observer.old }
    ensures ends { (lines : LinesOf) → PutsAlong observer.old O.sees O.stops lines (IsTraceAnswer lines)
        → Over K.Sink out.old out.new (RunEnds (λ trace. IsTraceAnswer lines trace accepted.now) lines accepted.now
        (B.left second.old) (B.left second.new) result) }
    ensures statuses { IsRunStatus result }
    ensures cause { HasCause result (ReadFailed B.Source second.old second.new) (PutFailed K.Sink out.old out.new) }
{
    let network = accepted.network();
    let mut trace = Trace::new(accepted);
    match drive(&mut trace, second, world, network, observer, out) {
        Drove::All => end_with(Status::Done, out),
        Drove::Stopped(TraceStop::Fault(fault)) => {
            let line = u64::from(trace.lines()) + 1;
            let mut text = LineText::new();
            put_fault(fault, line, &mut text, out)
        }
        Drove::Stopped(TraceStop::ReadFault) => Status::ReadFault,
        Drove::Stopped(TraceStop::WriteFault) => Status::WriteFault,
        Drove::Cut(Cut::WriteFault) => Status::WriteFault,
        Drove::Cut(Cut::OutOfMemory) => end_with(Status::OutOfMemory, out),
    }
}
