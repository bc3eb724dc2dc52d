//! The ballots of a run, kept: of each seat the number of the record by which it is cast.

mod keeping;
mod seats;
mod votes;

pub use device_rules::frames::traced::OutOfMemory;
pub use votes::KeptVotes;
