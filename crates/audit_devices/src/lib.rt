//! What the records of a report so far show of each device, at any place of their order.
#![tactic(auto)]

pub mod clocks;
mod effect;
mod history;
pub mod permanence;
mod shown;
mod standings;
pub mod stretches;
mod subject;
mod taking;
mod takings;

pub use effect::{Carried, channel_of, channel_of_link};
pub use shown::{Readings, Shown};
pub use standings::Standings;
pub use taking::Taking;
pub use takings::Takings;
