//! The whole run of a report as a picture: a row for each virtual link and receiver, and a column for each cycle.
#![tactic(auto)]

mod answering;
mod bars;
mod cells;
mod copies;
mod grid;
mod label;
mod laws;
mod lines;
mod news;
mod parts;
mod pieces;
mod rows;
mod shade;
mod signs;
mod spread;
mod telling;

pub use answering::Overview;
pub use grid::{Grid, GridPen};
pub use label::{Group, Kind, Label};
pub use laws::{colours_law, head_law, overview_law, states_law};
pub use news::{Change, Copied, News};
pub use pieces::{Piece, Ribbon};
pub use shade::Shade;
