//! What the local clocks of a run show at the end of each cycle, and how far they are apart then.
#![tactic(auto)]

mod answering;
mod cycles;
mod laws;
mod lines;
mod putting;
mod spread;
mod telling;

pub use answering::Clocks;
pub use laws::clocks_law;
pub use spread::Ends;
pub use telling::DeviceClock;
