//! What the events of a report have set, for any time: the wire delays, holds and cuts of the ways, the rates of the
//! clocks and so their readings, what is broken and what is turned on.

mod clocks;
mod history;
mod laws;
mod settings;

pub use history::{EventHistory, has_come};
pub use laws::reading_law;
pub use settings::{Setting, Settings};
pub use tte_units::OutOfMemory;
