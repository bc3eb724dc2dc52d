//! A network on one sheet: its numbers, what they are made of, the loads of its ways and its virtual links, in
//! microseconds and parts per million.
#![tactic(auto)]

mod answering;
mod figures;
mod laws;
mod lines;
mod loads;
mod numbers;
mod sheet;
mod ways;
mod weights;

pub use answering::sheet_of_network;
pub use laws::sheet_law;
pub use loads::Load;
pub use sheet::{Number, SheetLine};
pub use weights::Weights;
