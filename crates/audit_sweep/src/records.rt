//! What is kept of the records of a report: by its number, what a later record may read of it as its cause.

pub mod dispatches;
mod kept;
mod making;
pub mod places;
mod records;
pub mod wires;

pub use kept::{Kept, KeptRecord, Sending};
pub use records::KeptRecords;
pub use tte_units::OutOfMemory;
