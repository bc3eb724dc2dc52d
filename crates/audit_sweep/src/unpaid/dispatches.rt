//! The first time at which a report owes the record of a dispatch, that a row's frame of a cycle was put on its link or
//! lost on a cut way, and has none.

mod debtor;
mod finding;
mod lacking;

pub use debtor::RowDebtor;
