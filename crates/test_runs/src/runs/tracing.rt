use net_plan::{Event, What};
use std::process::Abort;
use std::test::Fail;
use tte_io::{MemorySink, MemorySource};
use tte_traces::{Trace, TraceStop};
use tte_units::Units;
use worked_network::worked;

// What a trace gave: how many events, and why it stopped, if it did not end.
type Given = (u32, Option<TraceStop>);

// Takes events until the trace ends or stops.
fn given(trace: &mut Trace, source: &mut MemorySource, out: &mut MemorySink) -> Given {
    let mut event = Event {
        time: Units(0),
        what: What::End,
    };
    for _ in 0..100 {
        match trace.next_event(source, &mut event, out) {
            Ok(true) => {}
            Ok(false) => return (trace.lines(), None),
            Err(stop) => return (trace.lines(), Some(stop)),
        }
    }
    (trace.lines(), None)
}

fn given_is(
    rt: &impl Abort,
    trace: &mut Trace,
    source: &mut MemorySource,
    out: &mut MemorySink,
    wanted: Given,
) {
    assert!(rt; given(trace, source, out) == wanted);
}

// What is given up to the failed read, up to the failed pass, and to the end.
const GOES_ON: &[Given] = &[
    (0, Some(TraceStop::ReadFault)),
    (1, Some(TraceStop::WriteFault)),
    (2, None),
];

#[test]
fn a_trace_goes_on_after_a_failed_read_or_pass(rt: HostRuntime) -> Result<(), Fail> {
    let alloc = rt.alloc();
    let accepted = worked(alloc)?;
    let mut source = MemorySource::new(alloc, b"1000 cut m1_a up\n2000 end\n", 10, &[2])?;
    let mut out = MemorySink::with_failing_passes(alloc, 0, &[], &[3])?;
    let mut trace = Trace::new(&accepted);
    for wanted in GOES_ON {
        given_is(&rt, &mut trace, &mut source, &mut out, *wanted);
    }
    Ok(())
}
