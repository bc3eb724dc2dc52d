//! How long the frames of each virtual link are on their way to each receiver, and where in its cycle they come.
#![tactic(auto)]

mod answering;
mod arrivals;
mod comings;
mod laws;
mod lines;
mod seeing;
mod trips;

pub use answering::{Latency, latency_of_network};
pub use arrivals::FrameArrival;
pub use comings::{Coming, comings_by, is_end_system};
pub use laws::latency_law;
pub use lines::push_names;
pub use seeing::{ReportedComing, SeenFrames};
pub use trips::Trip;
