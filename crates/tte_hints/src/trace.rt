use crate::hinting::Called;
use crate::layout::of_second;
use crate::past::Past;
use crate::saying::Hole::Count;
use crate::saying::filled;
use schedule_tables::Accepted;
use std::alloc::Global;
use tte_forms::accept;
use tte_io::{LineReader, LineTaken, Source};

/// Why the trace is refused, by its first line that is, as far as memory goes.
fn trace_fault<B: Source>(alloc: Global, accepted: &Accepted, second: &mut B) -> Option<String> {
    let mut reader = LineReader::new();
    let mut past = Past::new(alloc, accepted);
    for number in 1..u32::MAX {
        match reader.next_line(second) {
            Ok(LineTaken::Whole) => {
                if let Err(fault) = past.take(number, reader.text()) {
                    return fault;
                }
            }
            Ok(LineTaken::Long) => {
                return filled(
                    alloc,
                    "line {} has more than 4096 octets",
                    &[Count(number.into())],
                );
            }
            Ok(LineTaken::End) if past.has_ended() => return None,
            Ok(LineTaken::End) => {
                let no_end = "no line is the end, as in: 1048576000000 end";
                return String::from_str(alloc, no_end).ok();
            }
            Err(_) => return None,
        }
    }
    None
}

/// Why the trace of a call is refused, from its two files.
pub(crate) fn refused_trace<A: Source, B: Source>(
    alloc: Global,
    called: Called<'_>,
    first: &mut A,
    second: &mut B,
) -> Option<String> {
    let accepted = accept(alloc, first).ok()?;
    let fault = trace_fault(alloc, &accepted, second)?;
    of_second(alloc, called, fault.as_str())
}
