//! The first times at which debts of a report that records bring are not paid.

mod arrivals;
mod brought;
mod changes;
mod clocks;
mod debtor;
mod departures;
pub mod dispatches;
mod earliest;
pub mod emissions;
mod losses;
mod paid;
mod payments;
mod permanences;
pub mod points;

pub use debtor::Debtor;
pub use earliest::earlier_of;
pub use paid::Paid;
pub use payments::Payments;
