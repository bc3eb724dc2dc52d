//! Whether the delivery of a virtual link's frame to a receiver is owed in a cycle of a run, and if not, why. It is
//! judged by what the events have set and by what the records show of the devices.

mod beginning;
mod certain;
mod course;
mod fate;
mod flow;
mod reached;
mod receiving;
mod sent;

pub use beginning::Begun;
pub use course::Course;
pub use fate::Fate;
pub use flow::{Flow, RowSpan};
