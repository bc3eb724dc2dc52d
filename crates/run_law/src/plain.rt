//! A record of no event, in a form that is small: a record itself has room for the octets of an event, and moving it
//! or clearing it costs more than what is done with it. So the records that a run gives, and those that a report tells,
//! are kept as these are, and put in the place of a record where one is wanted. Their places are those of the order in
//! which a run tells its records.

mod apart;
mod bodies;
mod notes;
mod places;

pub use apart::EventOrPlain;
pub use bodies::{PlainBody, PlainKind};
pub use notes::{PlainNote, no_record};
pub use places::{Place, Rank};
