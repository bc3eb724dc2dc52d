//! The flows of a network, and what a report shows of each: how many cycles have which fate, how many frames were
//! delivered and on which channel, and how near they came to the ends of their windows.

mod counting;
mod deliveries;
mod flows;
mod nearest;
mod told;

pub use counting::FateCounts;
pub(crate) use deliveries::deliveries_in;
pub use deliveries::{Deliveries, Delivery};
pub use flows::flows_of;
pub use nearest::Nearest;
pub use told::{FlowTold, tell_all};
