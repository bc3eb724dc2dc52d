//! What a world holds: the parts of its state, and how each is made, kept and changed.
#![tactic(auto)]

pub mod applying;
pub mod befalling;
pub mod changes;
pub mod contents;
pub mod event_notes;
pub mod frames;
pub mod fresh;
pub mod giving;
pub mod hands;
pub mod hearing;
pub mod kept;
pub mod leaving;
pub mod outcomes;
pub mod packets;
pub mod queue;
pub mod reached;
pub mod ripening;
pub mod sending;
pub mod settled;
pub mod shelves;
pub mod storing;
pub mod timers;
pub mod timing;
pub mod waiting;

pub use event_notes::EventNote;
pub use tte_units::OutOfMemory;
