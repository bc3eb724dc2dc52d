//! The clusters of the points of one compression master, as they were after any number of points.

mod emitted;
mod gathering;
mod history;
mod kept;
mod mean;

pub use emitted::Emitted;
pub use gathering::Gathering;
pub use history::CollectionHistory;
