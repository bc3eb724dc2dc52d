//! A whole world: a network as it runs, with all its frames.
#![tactic(auto)]

mod act;
mod applying;
mod befalling;
mod begin;
mod give;
mod hear;
mod laws;
mod leave;
mod local;
mod next;
mod part;
mod ripe;
mod ripen;
mod show;
mod source;
mod state;
mod timing;
mod working;
mod world;

pub use laws::runs_behind_events;
pub use world::World;
pub use world_state::{EventNote, OutOfMemory};
