//! The records of a report, judged one after the other: each is due or not, given those before it.
#![tactic(auto)]

mod arriving;
mod changing;
mod clocks;
mod dispatching;
mod ending;
mod hearing;
mod index;
mod judging;
mod known;
mod lacking;
mod leaving;
mod passage;
pub mod records;
mod ripening;
mod standing;
mod sweep;
pub mod unpaid;

pub use crate::records::OutOfMemory;
pub use index::{Index, Permanence};
pub use known::{carried_by, readings};
pub use sweep::Sweep;
