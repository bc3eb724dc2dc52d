ghost use Rattle.std.specs.Prelude.{◌≡◌, ◌≤◌, length};
ghost use Rattle.tte_forms.specs.{Answering.{Gives, line_answer}, Faults.{IsWanted, PutFailed}, Putting.Over};
ghost use Rattle.tte_traces.specs.{FaultLine.{fault_status, trace_refusal_line}, Refusing.fault_answer};

use crate::fault::TraceFault;
use crate::fault_line::{line_reason, make_outside_line, make_trace_refusal_line};
use run_law::Outside;
use tte_forms::{Status, end_with, put_last};
use tte_io::{LineText, Sink};

/// Answers why the trace is refused at the line of this number, in words made in `line`.
pub fn put_fault<K: Sink>(
    fault: TraceFault,
    number: u64,
    line: &mut LineText,
    out: &mut K,
) -> Status
    ensures gives { Over K.Sink out.old out.new (Gives (fault_answer number fault) result) }
    ensures status { IsWanted (fault_status fault) result (PutFailed K.Sink out.old out.new) }
{
    match fault {
        TraceFault::Missing => put_refusal(number, "missing", line, out),
        TraceFault::TooMany => end_with(Status::TooLong, out),
        TraceFault::After => put_refusal(number, "after", line, out),
        TraceFault::Long => put_refusal(number, "long", line, out),
        TraceFault::Line(refusal) => put_refusal(number, line_reason(refusal), line, out),
        TraceFault::Event(outside) => put_outside(number, outside, line, out),
    }
}

fn put_refusal<K: Sink>(number: u64, reason: &str, line: &mut LineText, out: &mut K) -> Status
    requires { length reason.now ≤ 7 }
    ensures gives { Over K.Sink out.old out.new
        (Gives (line_answer Status.TraceRefused (trace_refusal_line number reason.now)) result) }
    ensures status { IsWanted Status.TraceRefused result (PutFailed K.Sink out.old out.new) }
{
    make_trace_refusal_line(line, number, reason);
    put_last(line.as_slice(), Status::TraceRefused, out)
}

fn put_outside<K: Sink>(number: u64, outside: Outside, line: &mut LineText, out: &mut K) -> Status
    ensures gives { Over K.Sink out.old out.new (Gives (fault_answer number (TraceFault.Event outside)) result) }
    ensures status { IsWanted Status.OutsideHypothesis result (PutFailed K.Sink out.old out.new) }
{
    make_outside_line(line, number, outside);
    put_last(line.as_slice(), Status::OutsideHypothesis, out)
}
