//! The report of a run: a record becomes its line, and two lists of records have one report only where
//! they are one.
#![tactic(auto)]

mod fields;
mod kinds;
mod laws;
mod numbers;
mod times;
mod words;
mod writing;

pub use laws::one_report;
pub use numbers::NumberText;
pub use times::TimeText;
pub use words::{judgement_text, state_text, why_text};
pub use writing::{make_event_line, make_note_line, make_plain_line, write, write_in};
