//! The least times that the rules of times admit for the links, the delays and the rates of a network.

mod answering;
mod computing;
mod laws;
mod lines;
mod parts;
mod times;

pub use answering::least_of_network;
pub use laws::least_law;
pub use parts::{greatest_start, longest_delay, slowest_port};
pub use times::Times;
