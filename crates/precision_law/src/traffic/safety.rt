//! That each run of an accepted network is safe, where the events that befall it are within the fault hypothesis and
//! its devices have clocks of one kind, at the rates that these events set.

mod laws;

pub use laws::{ended_runs_are_safe, front_runs_are_safe, own_runs_are_safe, runs_so_far_are_safe};
