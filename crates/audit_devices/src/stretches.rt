//! What the compression masters of a network have collected, at any place of the order of a report's records.

mod change;
mod history;
mod kept;
mod laws;
mod stretch;

pub use history::StretchHistory;
pub use laws::points_rise;
pub use stretch::Stretch;
