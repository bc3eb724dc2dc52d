//! The schedule of a network as a picture: the tree of each channel, and the frames of each port in the cycle.
#![tactic(auto)]

mod answering;
mod frames;
mod lanes;
mod laws;
mod part;
mod picture;
mod scale;
mod text;
mod tree;
mod zones;

pub use answering::schedule_of_network;
pub use frames::{Frame, Stroke};
pub use lanes::Lane;
pub use laws::schedule_law;
pub use part::SchedulePart;
pub use scale::Scale;
pub use tree::Twig;
pub use zones::{CycleStretch, Zone};
