//! A trace's lines: a line becomes an event or its leftmost fault, and an event its line.
#![tactic(auto)]

mod event_word;
mod frames;
mod laws;
mod names;
mod numbers;
mod printing;
mod reading;
mod refusal;
mod words;

pub use event_word::way_text;
pub use laws::{prints_back_law, reads_back_law};
pub use names::{device_spelled, link_spelled};
pub use printing::{EventText, event_text, print, push_what};
pub use reading::{line, line_in, what_in};
pub use refusal::LineRefusal;
pub use words::Words;
