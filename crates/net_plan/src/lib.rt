//! The network as its designer writes it: devices, links, virtual links and rows, with the events
//! that befall it; look-ups by name, paths, and the two numbers that follow from them.
#![tactic(auto)]

mod event;
mod formulas;
mod ids;
mod laws;
mod lookup;
mod name;
mod network;
mod octets;
mod path;
mod tables;

pub use event::{Event, What};
pub use ids::{DeviceId, LinkId, RowId, VlId};
pub use laws::{beta_exists, beta_is_unique, paths_are_unique, rules_give_trees};
pub use name::Name;
pub use network::Network;
pub use octets::Octets;
pub use path::Path;
pub use tables::{Device, Devices, Link, Links, Role, Row, Rows, VirtualLink, VirtualLinks, Way};
