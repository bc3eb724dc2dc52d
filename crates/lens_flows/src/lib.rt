//! The flows of a report: what each receiver of a virtual link got, what was owed to it, and why the rest was not.
#![tactic(auto)]

mod answering;
pub mod counts;
pub mod judge;
mod laws;
mod lines;
mod seeing;
mod sums;

pub use answering::Flows;
pub use laws::flows_law;
