//! The first times at which a report owes a record of what a device's clock comes to and has none: of what a master
//! sends, and of a correction point.

mod correcting;
mod sending;

pub use correcting::first_untold;
pub use sending::first_unsent;
