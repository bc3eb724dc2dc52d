//! The events of a storm as the lines of a trace, and what a run over them has to do with the storm's summary.

mod laws;
mod putting;

pub use laws::{events_answers_exist, storm_report_law};
pub use putting::storm_events;
