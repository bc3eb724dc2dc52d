//! The commands of the program, over any source and any sink.
#![tactic(auto)]

mod top;

pub use top::{answer_law, tte};
pub use tte_forms::{Status, Words, check_network, show, show_law};
pub use tte_observers::captures::wires::wire_trace;
pub use tte_observers::captures::{capture_file, capture_law};
pub use tte_observers::stamps::stamp_trace;
pub use tte_observers::votes::vote_trace;
pub use tte_reports::audit_report;
pub use tte_traces::run_trace;
pub use tte_traces::storms::storm_run;
