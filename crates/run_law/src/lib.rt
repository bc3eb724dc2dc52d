//! What a run of a network is: its events within the fault hypothesis, its records and their causes,
//! and what holds of all runs.
#![tactic(auto)]

mod cycles;
mod first_laws;
mod judgement;
mod laws;
mod locals;
mod machine;
mod note;
mod outside;
pub mod plain;
mod steps;
mod ways;

pub use cycles::place_in_cycle;
pub use first_laws::{broken_are_still, deliveries_begin, sent_frames_come};
pub use judgement::{Judgement, Reason, Why};
pub use laws::{earlier_run_is_front, hypothesis_is_decided, run_goes_on, run_is_one};
pub use locals::spread;
pub use machine::Machine;
pub use note::{Note, NoteBody, cause_of};
pub use outside::Outside;
pub use steps::{Act, Arrival, Moment, Ripe};
pub use ways::{is_way, is_way_of};
