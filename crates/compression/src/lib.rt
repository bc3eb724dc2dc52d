//! How a compression master collects the permanence points of masters into clusters, and what it
//! emits for each.
#![tactic(auto)]

mod collection;
mod collector;
mod compressed;
mod laws;
mod middling;
mod points;
mod taken;
mod waiting;

pub use collector::Collector;
pub use compressed::Compressed;
pub use laws::{clusters_law, emission_law, middle_law, one_cluster_law};
pub use middling::middle;
pub use points::Points;
pub use taken::Taken;
