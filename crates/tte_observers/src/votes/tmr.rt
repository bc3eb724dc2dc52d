//! The vote of two out of three: three seats, each with a payload, and the value on which two of them agree. No call
//! takes memory.

mod ballot;
mod seat;

pub use ballot::Ballot;
