//! The run of a network under a storm: what is counted and seen of its records, and the summary that is put.

mod counting;
mod events;
mod laws;
mod spreads;
mod storming;
pub mod summary;
mod summing;

pub use events::StormEvents;
pub use laws::{frames_fit, storm_answers_exist};
pub use storming::storm_run;
