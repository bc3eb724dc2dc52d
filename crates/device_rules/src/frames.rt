//! The frames that correct devices make: control frames, and the time-triggered frames of virtual links.

mod control;
mod timed;
pub mod traced;

pub use control::{dispatched_frame, integration_frame, member_of};
pub use timed::MadeFrame;
