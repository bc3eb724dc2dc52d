//! The transparent clock of a frame: how it grows, and when the frame is permanent.

mod growing;
mod laws;
mod points;

pub use growing::{arrive, leave};
pub use laws::{path_law, waiting_law};
pub use points::permanence;
