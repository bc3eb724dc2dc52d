//! The order of the records of a run: the ranks of their kinds, and their places.

mod numbers;
mod place;
mod rank;

pub use place::Place;
pub use rank::Rank;
