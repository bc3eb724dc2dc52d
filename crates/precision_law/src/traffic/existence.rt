//! That runs exist: a network in range has a run up to each time, whatever befalls it and whatever its clocks read.
//! By `run_law` it has no other, so a network, its clocks and its events have one run.
//!
//! The proof goes from time to time, from rank to rank and from place to place: the numbers in the places of what is
//! due at a time and rank are bounded, and at each place it is decided whether a record is due.

mod laws;
pub mod worked;

pub use laws::{runs_exist, runs_exist_to_each_mark};
