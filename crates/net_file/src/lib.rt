//! A designer's network file, which is a TOML document, becomes a network, or its first fault.
#![tactic(auto)]

mod device;
mod document;
mod file;
mod index;
mod keys;
mod law;
mod link;
mod names;
mod reader;
mod refusal;
mod row;
mod spots;
mod text_place;
mod values;
mod vl;

pub use file::read_network;
pub use keys::KeyName;
pub use law::names_law;
pub use refusal::FileRefusal;
pub use spots::{Spot, TableName};
pub use text_place::{TextPlace, find_fault};
