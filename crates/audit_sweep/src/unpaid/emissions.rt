//! The first time at which a compression master owes the frame of a cluster and a report has no record of it.

mod emitting;
mod first;

pub use first::first_unemitted;
