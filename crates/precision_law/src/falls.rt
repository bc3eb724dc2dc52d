//! That local clocks do not fall back by more than the precision, and that no correction is greater than it.

mod laws;

pub use laws::{clocks_do_not_fall_back, corrections_are_small};
