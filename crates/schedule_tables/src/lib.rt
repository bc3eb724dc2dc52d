//! The schedule of an accepted network: its rules, its rows with their windows, and the order in
//! which a device dispatches them.
#![tactic(auto)]

mod accepted;
mod entry;
mod laws;
mod rule;
mod slot;
mod tables;
mod window;

pub use accepted::Accepted;
pub use entry::{Entry, entries_of, entry_of};
pub use laws::{entries_law, margins_law};
pub use rule::Rule;
pub use slot::{DispatchPlace, RESIDUES, Slot, Whose, first_slot, slots_of};
pub use tables::Tables;
pub use tte_units::OutOfMemory;
pub use window::{Window, arrival_of, tolerance, window_of};
