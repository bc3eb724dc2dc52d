//! The program's world, whose clocks are exact: where it stands with the events and the records of a run.

mod exact_world;

pub use exact_world::ExactWorld;
