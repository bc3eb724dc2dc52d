//! One loop that drives a world: a source gives the events that befall it, and an observer sees them and the records
//! of the run, one by one. However the drive ended, the observer has seen exactly the records of the run up to a mark.
#![tactic(auto)]

mod beginning;
pub mod devices;
mod driving;
pub mod exact;
pub mod machines;
mod observing;
mod seeing;
mod sources;

pub use beginning::begin_world;
pub use driving::{Drove, drive};
pub use observing::{Cut, Observer};
pub use sources::Events;
