//! Sparse global time: events are stamped by the clocks of synchronised devices, in granules of the common time.
//!
//! A granule is at least four times the precision. A device stamps a line of a trace by its local clock when the line's
//! event comes, before the records of that time, if it is then correct and synchronised. So any two stamps of one line
//! differ by at most one, and of two lines whose stamps differ by two or more the one with the greater stamp is later.

mod granule;
mod laws;

pub use granule::{Granule, least};
pub use laws::{stamps_agree, stamps_are_of_locals, stamps_tell_order};
