//! A network's world, whose devices have the machines of their roles.

mod world;

pub use drift_world::OutOfMemory;
pub use world::{World, whole_units};
