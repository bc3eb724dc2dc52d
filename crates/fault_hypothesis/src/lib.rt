//! The watch over the fault hypothesis: whether an event may befall a network, given those that it
//! admitted before.
#![tactic(auto)]

mod conditions;
mod places;
pub mod storm;
mod watch;

pub use run_law::Outside;
pub use watch::Watch;
