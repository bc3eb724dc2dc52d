ghost use Rattle.std.specs.Prelude.{◌≡◌, ◌≢◌, ◌≤◌, ◌⊎◌, Err, IfErr, length};
ghost use Rattle.tte_forms.specs.{Faults.{PutFailed, ReadFailed}, Putting.{IsPassedOn, Over, PutsNone, shown_by}};
ghost use Rattle.tte_io.specs.{Line.{ahead_limit, line_limit}, NextLine.NextLine, Outcome.TellsOutcome};
ghost use Rattle.tte_io.specs.ReaderState.{pending};

use crate::fault::TraceStop;
use tte_io::{LineReader, LineTaken, Sink, Source};

/// Takes the next line of a trace: from the octets ahead, or by reads, before which it passes on all
/// that was put.
///
/// The error is that a read or passing on failed. The next call goes on where this one stopped.
pub(crate) fn next_line<B: Source, K: Sink>(
    reader: &mut LineReader,
    source: &mut B,
    out: &mut K,
) -> Result<LineTaken, TraceStop>
    ensures next { NextLine (pending reader.old) reader.old.ended (B.left source.old)
        reader.new (B.left source.new) result }
    ensures told { TellsOutcome (pending reader.old) reader.old.ended (B.left source.old)
        reader.new (B.left source.new) result }
    ensures stop { IfErr result (λ stop. (stop ≡ TraceStop.ReadFault) ⊎ (stop ≡ TraceStop.WriteFault)) }
    ensures kept_bound { length reader.new.kept ≤ line_limit }
    ensures ahead_bound { length reader.new.ahead ≤ ahead_limit }

    ensures never_falls { B.faults source.old ≤ B.faults source.new }
    ensures unchanged { result ≢ Err TraceStop.ReadFault → B.faults source.new ≡ B.faults source.old }
    ensures failed_rose { result ≡ Err TraceStop.ReadFault → ReadFailed B.Source source.old source.new }

    ensures nothing_put { Over K.Sink out.old out.new PutsNone }
    ensures passed { result ≡ Err TraceStop.ReadFault → IsPassedOn (shown_by K.Sink out.new) }
    ensures quiet { result ≢ Err TraceStop.WriteFault → K.faults out.new ≡ K.faults out.old }
    ensures unpassed { result ≡ Err TraceStop.WriteFault → PutFailed K.Sink out.old out.new }
{
    match reader.line_ahead() {
        Some(found) => return Ok(found),
        None => (),
    }
    match out.pass_on() {
        Ok(()) => (),
        Err(_) => return Err(TraceStop::WriteFault),
    }
    match reader.next_line(source) {
        Ok(found) => Ok(found),
        Err(_) => Err(TraceStop::ReadFault),
    }
}
