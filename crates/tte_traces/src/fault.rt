use run_law::Outside;
use trace_text::LineRefusal;

/// Why a trace is refused behind the events that were admitted.
#[derive(Clone, Copy, Debug, PartialEq, Eq)]
pub enum TraceFault {
    /// It ends without an end.
    Missing,
    /// It has too many lines.
    TooMany,
    /// A line stands behind the end.
    After,
    /// The line is too long.
    Long,
    /// The line has no event.
    Line(LineRefusal),
    /// The line's event is outside the fault hypothesis.
    Event(Outside),
}

/// Why no event is taken from a trace.
#[derive(Clone, Copy, Debug, PartialEq, Eq)]
pub enum TraceStop {
    /// A read failed.
    ReadFault,
    /// What was written could not be passed on before a read.
    WriteFault,
    /// The trace is refused.
    Fault(TraceFault),
}
