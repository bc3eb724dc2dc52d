//! Clocks that drift: what they read, and when they reach a value.
#![tactic(auto)]

mod clock;
mod laws;
mod segment;
mod steady;
pub mod transparent;

pub use clock::Clock;
pub use laws::{clock_laws, segment_law, slip_law, steady_law};
pub use segment::SegmentClock;
pub use steady::SteadyClock;
