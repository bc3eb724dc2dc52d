//! The hostile events of a storm. They are drawn from a number, and each is within the fault
//! hypothesis.

mod chosen;
mod draw;
mod laws;
mod storm;
mod strike;
mod words;

pub use draw::StormDraw;
pub use laws::{storm_is_one, storms_are_within};
pub use storm::Storm;
pub use words::Words;
