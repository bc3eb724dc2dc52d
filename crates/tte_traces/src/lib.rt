//! The run of a network under a trace: its lines, the records that are put, and why it stops.
#![tactic(auto)]

mod driving;
mod fault;
mod fault_line;
mod laws;
mod lines;
mod reading;
mod refusing;
mod report;
mod running;
pub mod storms;

pub use driving::follow_trace;
pub use fault::{TraceFault, TraceStop};
pub use laws::trace_answers_exist;
pub use lines::Trace;
pub use refusing::put_fault;
pub use running::run_trace;
