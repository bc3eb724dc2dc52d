//! That frames of the schedule meet no other frame on a port, and come in time, in each run within the fault
//! hypothesis.

pub mod existence;
mod laws;
pub mod safety;

pub use laws::{
    deliveries_keep_pace, deliveries_take_their_time, due_frames_come, owed_frames_come,
    ports_stay_apart, runs_are_safe,
};
