//! How far a clock is off by the frames that it has heard, and by how much to correct it.

mod deviations;

pub use deviations::{correction, deviation};
