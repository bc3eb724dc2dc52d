//! The summary of a run: how many records of each kind it has, how far apart its local clocks are seen, and the
//! lines that say so.

mod counted;
mod counts;
mod laws;
mod summary;
mod tally;

pub use counted::Counted;
pub use counts::{Counts, Drops};
pub use laws::{spread_is_one, spread_is_within_precision};
pub use summary::{LINES, Summary};
pub use tally::Tally;
